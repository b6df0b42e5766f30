// Whether the numbers of a shape are within their limits.
ghost use Rattle.std.specs.Prelude.{◌↔◌, IsTrue};
ghost use Rattle.svg_shapes.specs.Measures.{IsPlace, IsLength, IsBoxMeasured};
ghost use Rattle.svg_shapes.specs.Shapes.{IsLinePlaced, IsRectMeasured, IsEllipseMeasured};

use crate::boxes::FineBox;

// The greatest size of a coordinate, and the greatest length, in fine units.
const MOST: i64 = 1 << 26;

fn is_place(number: i64) -> bool
    ensures { IsTrue result ↔ IsPlace number }
{
    -MOST <= number && number <= MOST
}

fn is_length(number: i64) -> bool
    ensures { IsTrue result ↔ IsLength number }
{
    0 <= number && number <= MOST
}

// A place and two sides.
pub(crate) fn is_box_measured(measured: FineBox) -> bool
    ensures { IsTrue result ↔ IsBoxMeasured measured }
{
    is_place(measured.x)
        && (is_place(measured.y) && (is_length(measured.w) && is_length(measured.h)))
}

// The two ends of a line.
pub(crate) fn is_line_placed(x1: i64, y1: i64, x2: i64, y2: i64) -> bool
    ensures { IsTrue result ↔ IsLinePlaced x1 y1 x2 y2 }
{
    is_place(x1) && (is_place(y1) && (is_place(x2) && is_place(y2)))
}

// The box of a rect and its radii.
pub(crate) fn is_rect_measured(measured: FineBox, rx: i64, ry: i64) -> bool
    ensures { IsTrue result ↔ IsRectMeasured measured rx ry }
{
    is_box_measured(measured) && (is_length(rx) && is_length(ry))
}

// The centre of an ellipse and its radii.
pub(crate) fn is_ellipse_measured(cx: i64, cy: i64, rx: i64, ry: i64) -> bool
    ensures { IsTrue result ↔ IsEllipseMeasured cx cy rx ry }
{
    is_place(cx) && (is_place(cy) && (is_length(rx) && is_length(ry)))
}
