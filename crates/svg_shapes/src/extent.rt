ghost use Rattle.std.specs.Prelude.{◌≡◌, [], ◌∷◌, ◌^◌, fold, IfSome};
ghost use Rattle.std.specs.List.{All, flat_map};
ghost use Rattle.poly_shapes.specs.Extent.{widened, bounds_of, AreSidesWithin, IsPointWithin};
ghost use Rattle.svg_shapes.specs.Measures.{IsBoxMeasured};
ghost use Rattle.svg_shapes.specs.Shapes.{IsEllipseMeasured, IsLinePlaced, corners, rect_points, ellipse_points, line_points};

use crate::boxes::FineBox;
use poly_shapes::laws::bounds_of_near_points_are_near;
use poly_shapes::{Bounds, Point, bounds_of};

/// The least closed rectangle that holds two points, within 2^27.
fn extent_of_two(one: Point, other: Point) -> Option<Bounds>
    requires one { IsPointWithin (2 ^ 27) one }
    requires other { IsPointWithin (2 ^ 27) other }
    ensures value { result ≡ bounds_of (one ∷ other ∷ []) }
    ensures near { IfSome result (AreSidesWithin (2 ^ 27)) }
{
    bounds_of_near_points_are_near();
    bounds_of(&[one, other])
}

/// The extent of a line between two points.
pub fn line_extent(x1: i64, y1: i64, x2: i64, y2: i64) -> Option<Bounds>
    requires { IsLinePlaced x1 y1 x2 y2 }
    ensures value { result ≡ bounds_of (line_points x1 y1 x2 y2) }
    ensures near { IfSome result (AreSidesWithin (2 ^ 27)) }
{
    extent_of_two(Point { x: x1, y: y1 }, Point { x: x2, y: y2 })
}

/// The extent of a rect with these sides; none where one of them is 0.
pub fn rect_extent(sides: FineBox) -> Option<Bounds>
    requires { IsBoxMeasured sides }
    ensures value { result ≡ bounds_of (rect_points sides) }
    ensures near { IfSome result (AreSidesWithin (2 ^ 27)) }
{
    if sides.w == 0 || sides.h == 0 {
        return None;
    }
    bounds_of_near_points_are_near();
    bounds_of(&corners(sides))
}

/// The extent of an ellipse; none where a radius is 0.
pub fn ellipse_extent(cx: i64, cy: i64, rx: i64, ry: i64) -> Option<Bounds>
    requires { IsEllipseMeasured cx cy rx ry }
    ensures value { result ≡ bounds_of (ellipse_points cx cy rx ry) }
    ensures near { IfSome result (AreSidesWithin (2 ^ 27)) }
{
    if rx == 0 || ry == 0 {
        return None;
    }
    let first = Point {
        x: cx - rx,
        y: cy - ry,
    };
    let last = Point {
        x: cx + rx,
        y: cy + ry,
    };
    extent_of_two(first, last)
}

/// The extent of boxes; none without a box.
pub fn boxes_extent(boxes: &[FineBox]) -> Option<Bounds>
    requires { All IsBoxMeasured boxes.now }
    ensures value { result ≡ bounds_of (flat_map corners boxes.now) }
    ensures near { IfSome result (AreSidesWithin (2 ^ 27)) }
{
    bounds_of_near_points_are_near();
    bounds_of_corners(boxes)
}

/// The least closed rectangle that holds the corners of boxes; none without a box.
fn bounds_of_corners(boxes: &[FineBox]) -> Option<Bounds>
    requires { All IsBoxMeasured boxes.now }
    ensures { result ≡ bounds_of (flat_map corners boxes.now) }
{
    match boxes {
        [] => None,
        [first, rest @ ..] => {
            let bounds = bounds_of(&corners(*first))?;
            Some(widened_by(bounds, rest))
        }
    }
}

/// The least rectangle that holds this one and the boxes.
fn widened_by(first: Bounds, boxes: &[FineBox]) -> Bounds
    requires { All IsBoxMeasured boxes.now }
    ensures { result ≡ fold widened first (flat_map corners boxes.now) }
{
    let mut bounds = first;
    for &fine_box in boxes {
        bounds = bounds.widened_by(&corners(fine_box));
    }
    bounds
}

/// The corners of a box.
fn corners(sides: FineBox) -> [Point; 4]
    requires { IsBoxMeasured sides }
    ensures { result ≡ corners sides }
{
    let FineBox { x: l, y: t, w, h } = sides;
    let (r, b) = (l + w, t + h);
    [
        Point { x: l, y: t },
        Point { x: r, y: t },
        Point { x: r, y: b },
        Point { x: l, y: b },
    ]
}
