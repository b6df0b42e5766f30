ghost use Rattle.std.specs.Prelude.{◌≡◌, ◌≢◌, ◌^◌, ◌≤◌, ◌↔◌, ℤ, pos, ◌+ℤ◌, ◌-ℤ◌, ◌*ℤ◌, unsigned_abs, IsTrue, IsNone, IfSome};
ghost use Rattle.fractions.specs.Division.{IsFloor};
ghost use Rattle.affine.specs.Function.{AreWithin};
ghost use Rattle.affine.specs.Map.{IsWithinBound};
ghost use Rattle.affine.specs.Point.{IsSamePoint, whole_point, image, determinant, preimage, floor_of, local_point};

use crate::map::{Map, Parts, difference_of_products, times};
use fractions::floor_div;

/// Whether the map takes the plane to a line or a point, so that no point has just one preimage.
pub fn is_singular(m: &Map) -> bool
    ensures { IsTrue result ↔ (determinant m.now ≡ pos 0) }
{
    determinant_of(&m.parts()) == 0
}

/// Where the point (x, y) of whole units lies in the map's own space: 64 times its exact preimage, each coordinate
/// rounded down, in fine units. None exactly where the map is singular. x and y are at most 2^20 in size, and the
/// coordinates answered at most 2^122.
pub fn local(m: &Map, x: i64, y: i64) -> Option<(i128, i128)>
    requires x_size { unsigned_abs x ≤ 2 ^ 20 }
    requires y_size { unsigned_abs y ≤ 2 ^ 20 }
    ensures value { result ≡ local_point m.now x y }
    ensures singular { IsNone result ↔ (determinant m.now ≡ pos 0) }
    ensures floor_x { IfSome result (λ at. IsFloor (pos 64 *ℤ (preimage m.now x y).x) (preimage m.now x y).w at.0) }
    ensures floor_y { IfSome result (λ at. IsFloor (pos 64 *ℤ (preimage m.now x y).y) (preimage m.now x y).w at.1) }
    ensures size { IfSome result (λ at. AreWithin (2 ^ 122) at.0 at.1) }

    // What is rounded is the exact preimage: the map takes it to the point.
    ensures exact { IsSamePoint (image m.now (preimage m.now x y)) (whole_point x y) }
{
    let parts = m.parts();
    let w = determinant_of(&parts);
    if w == 0 {
        return None;
    }
    Some((
        floor_in_fine_units(preimage_x(&parts, x, y), w),
        floor_in_fine_units(preimage_y(&parts, x, y), w),
    ))
}

// d (q x - e) - c (q y - f): the preimage's x, times the determinant.
fn preimage_x(p: &Parts, x: i64, y: i64) -> i128
    requires bound { IsWithinBound p.now }
    requires x_size { unsigned_abs x ≤ 2 ^ 20 }
    requires y_size { unsigned_abs y ≤ 2 ^ 20 }
    ensures value { result ≡ (preimage p.now x y).x }
    ensures size { unsigned_abs result ≤ 2 ^ 116 }
{
    difference_of_products(p.d, unmoved(p.q, x, p.e), p.c, unmoved(p.q, y, p.f))
}

// a (q y - f) - b (q x - e): the preimage's y, times the determinant.
fn preimage_y(p: &Parts, x: i64, y: i64) -> i128
    requires bound { IsWithinBound p.now }
    requires x_size { unsigned_abs x ≤ 2 ^ 20 }
    requires y_size { unsigned_abs y ≤ 2 ^ 20 }
    ensures value { result ≡ (preimage p.now x y).y }
    ensures size { unsigned_abs result ≤ 2 ^ 116 }
{
    difference_of_products(p.a, unmoved(p.q, y, p.f), p.b, unmoved(p.q, x, p.e))
}

// a d - b c.
fn determinant_of(p: &Parts) -> i128
    requires { IsWithinBound p.now }
    ensures value { result ≡ determinant p.now }
    ensures size { unsigned_abs result ≤ 2 ^ 116 }
{
    difference_of_products(p.a, p.d, p.b, p.c)
}

// q x - e: a coordinate before the map moved it, times the denominator.
fn unmoved(q: i128, x: i64, e: i128) -> i128
    requires q_size { unsigned_abs q ≤ 2 ^ 44 }
    requires x_size { unsigned_abs x ≤ 2 ^ 20 }
    requires e_size { unsigned_abs e ≤ 2 ^ 70 }
    ensures value { result ≡ q *ℤ x -ℤ e }
    ensures size { unsigned_abs result ≤ 2 ^ 71 }
{
    times(q, i128::from(x)) - e
}

// 64 n / d rounded down.
fn floor_in_fine_units(n: i128, d: i128) -> i128
    requires divisor { d ≢ pos 0 }
    requires n_size { unsigned_abs n ≤ 2 ^ 116 }
    requires d_size { unsigned_abs d ≤ 2 ^ 116 }
    ensures floor { IsFloor (pos 64 *ℤ n) d result }
    ensures value { result ≡ floor_of (pos 64 *ℤ n) d }
    ensures size { unsigned_abs result ≤ 2 ^ 122 }
{
    floor_div(64 * n, d)
}

#[cfg(test)]
mod tests;
