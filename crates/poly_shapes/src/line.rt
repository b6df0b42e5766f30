ghost use Rattle.std.specs.Prelude.{◌≡◌, ◌^◌, ◌≤◌, ◌≤ℤ◌, pos, unsigned_abs};
ghost use Rattle.poly_shapes.specs.Segments.{IsPlaced, IsNear};
ghost use Rattle.poly_shapes.specs.Outline.{line};
ghost use Rattle.poly_shapes.specs.Stroke.{strokes};

use crate::point::{Cap, Point};
use crate::poly::{is_near, spot};
use crate::stroke::{Pen, subpath_holds};

/// Whether the stroke of a straight line between two points, with a width from 0 to 2^26 in their units, holds a point,
/// which may lie anywhere. It takes no memory. SVG 2, "The 'line' element" and "Stroke properties".
pub fn line_stroke_holds(from: Point, to: Point, width: i64, cap: Cap, x: i128, y: i128) -> bool
    requires from { IsPlaced from }
    requires to { IsPlaced to }
    requires width_above { pos 0 ≤ℤ width }
    requires width_below { width ≤ℤ pos (2 ^ 26) }
    ensures { result ≡ strokes (line from to) (unsigned_abs width) cap x y }
{
    let width = width.unsigned_abs();
    is_near(x, y) && is_stroked(from, to, Pen { width, cap }, spot(x, y))
}

fn is_stroked(from: Point, to: Point, pen: Pen, at: Point) -> bool
    requires from { IsPlaced from }
    requires to { IsPlaced to }
    requires width { pen.width ≤ 2 ^ 26 }
    requires at { IsNear at }
    ensures { result ≡ strokes (line from to) pen.width pen.cap at.x at.y }
{
    pen.width > 0 && subpath_holds(&[from, to], false, pen, at)
}
