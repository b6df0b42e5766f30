ghost use Rattle.std.specs.Prelude.{◌≡◌, ◌+◌, ◌≤◌, length};
ghost use Rattle.poly_shapes.specs.Outline.{points_of};

use crate::point::{Point, Sub};

/// The points of a subpath.
pub fn points_of(points: &[Point], sub: Sub) -> &[Point]
    requires { sub.first + sub.count ≤ length points.now }
    ensures { result.now ≡ points_of points.now sub }
{
    let first = sub.first as usize;
    &points[first..first + sub.count as usize]
}
