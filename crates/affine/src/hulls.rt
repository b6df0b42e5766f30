ghost use Rattle.std.specs.Prelude.{◌≡◌, ◌^◌, ◌≤◌, ℤ, pos, neg_ℤ, ◌+ℤ◌, ◌*ℤ◌, ◌<ℤ◌, ◌≤ℤ◌, unsigned_abs};
ghost use Rattle.affine.specs.Point.{floor_of};
ghost use Rattle.affine.specs.Hull.{IsHull, hull_of, corner_image, least_of, greatest_of, shared_part, zeros_if_empty};

use crate::map::{Map, sum_of_products};
use fractions::{Rect, floor_div};

/// The least half open rectangle of whole units that holds every image of the closed rectangle `r`, met with `region`;
/// four zeros where that leaves no point. The edges of `r` are in order.
pub fn hull(m: &Map, r: &Rect, region: &Rect) -> Rect
    requires across { r.now.l ≤ℤ r.now.r }
    requires down { r.now.t ≤ℤ r.now.b }
    ensures value { result ≡ shared_part (hull_of m.now r.now) region.now }

    // What is met with the region is that least rectangle.
    ensures least { IsHull m.now r.now (hull_of m.now r.now) }
{
    let parts = m.parts();
    let across = span(parts.a, parts.c, parts.e, parts.q, r);
    let down = span(parts.b, parts.d, parts.f, parts.q, r);
    shared(&across, &down, region)
}

// A half open range of whole units, of either coordinate.
#[derive(Clone, Copy)]
struct Range {
    from: i128,
    before: i128,
}

// The least range that holds one coordinate of every image, by a row of the matrix.
fn span(a: i128, c: i128, e: i128, q: i128, r: &Rect) -> Range
    requires a_size { unsigned_abs a ≤ 2 ^ 44 }
    requires c_size { unsigned_abs c ≤ 2 ^ 44 }
    requires e_size { unsigned_abs e ≤ 2 ^ 70 }
    requires q_size { unsigned_abs q ≤ 2 ^ 44 }
    requires positive { pos 0 <ℤ q }
    ensures from { result.from ≡ floor_of (least_of (corner_image a c e r.now.l r.now.t) (corner_image a c e r.now.r r.now.t)
        (corner_image a c e r.now.l r.now.b) (corner_image a c e r.now.r r.now.b)) q }
    ensures before { result.before ≡ floor_of (greatest_of (corner_image a c e r.now.l r.now.t) (corner_image a c e r.now.r r.now.t)
        (corner_image a c e r.now.l r.now.b) (corner_image a c e r.now.r r.now.b)) q +ℤ pos 1 }
{
    let left_top = corner(a, c, e, r.l, r.t);
    let right_top = corner(a, c, e, r.r, r.t);
    let left_bottom = corner(a, c, e, r.l, r.b);
    let right_bottom = corner(a, c, e, r.r, r.b);
    Range {
        from: floor(least(left_top, right_top, left_bottom, right_bottom), q),
        before: floor(greatest(left_top, right_top, left_bottom, right_bottom), q) + 1,
    }
}

// a u + c v + e.
fn corner(a: i128, c: i128, e: i128, u: i64, v: i64) -> i128
    requires a_size { unsigned_abs a ≤ 2 ^ 44 }
    requires c_size { unsigned_abs c ≤ 2 ^ 44 }
    requires e_size { unsigned_abs e ≤ 2 ^ 70 }
    ensures value { result ≡ corner_image a c e u v }
    ensures size { unsigned_abs result ≤ 2 ^ 117 }
{
    sum_of_products(a, i128::from(u), c, i128::from(v)) + e
}

fn least(a: i128, b: i128, c: i128, d: i128) -> i128
    requires sizes { (unsigned_abs a ≤ 2 ^ 117) × (unsigned_abs b ≤ 2 ^ 117) }
    requires more_sizes { (unsigned_abs c ≤ 2 ^ 117) × (unsigned_abs d ≤ 2 ^ 117) }
    ensures value { result ≡ least_of a b c d }
    ensures size { unsigned_abs result ≤ 2 ^ 117 }
{
    a.min(b).min(c.min(d))
}

fn greatest(a: i128, b: i128, c: i128, d: i128) -> i128
    requires sizes { (unsigned_abs a ≤ 2 ^ 117) × (unsigned_abs b ≤ 2 ^ 117) }
    requires more_sizes { (unsigned_abs c ≤ 2 ^ 117) × (unsigned_abs d ≤ 2 ^ 117) }
    ensures value { result ≡ greatest_of a b c d }
    ensures size { unsigned_abs result ≤ 2 ^ 117 }
{
    a.max(b).max(c.max(d))
}

// n / d rounded down, by a positive number.
fn floor(n: i128, d: i128) -> i128
    requires positive { pos 0 <ℤ d }
    requires n_size { unsigned_abs n ≤ 2 ^ 117 }
    requires d_size { unsigned_abs d ≤ 2 ^ 44 }
    ensures value { result ≡ floor_of n d }
    ensures size { unsigned_abs result ≤ 2 ^ 126 }
{
    floor_div(n, d)
}

// What the rectangle of both ranges and the region share, or four zeros.
fn shared(across: &Range, down: &Range, region: &Rect) -> Rect
    ensures { result ≡ shared_part (record { l = across.now.from; t = down.now.from; r = across.now.before; b = down.now.before }) region.now }
{
    let l = across.from.max(i128::from(region.l));
    let t = down.from.max(i128::from(region.t));
    let r = across.before.min(i128::from(region.r));
    let b = down.before.min(i128::from(region.b));
    some_rect(l, t, r, b)
}

// The rectangle of these edges, or four zeros where it holds no point.
fn some_rect(l: i128, t: i128, r: i128, b: i128) -> Rect
    requires left { neg_ℤ (pos (2 ^ 63)) ≤ℤ l }
    requires top { neg_ℤ (pos (2 ^ 63)) ≤ℤ t }
    requires right { r <ℤ pos (2 ^ 63) }
    requires bottom { b <ℤ pos (2 ^ 63) }
    ensures { result ≡ zeros_if_empty (record { l = l; t = t; r = r; b = b }) }
{
    if l < r && t < b {
        Rect {
            l: l as i64,
            t: t as i64,
            r: r as i64,
            b: b as i64,
        }
    } else {
        Rect {
            l: 0,
            t: 0,
            r: 0,
            b: 0,
        }
    }
}

#[cfg(test)]
mod tests;
