ghost use Rattle.std.specs.Prelude.{◌≡◌, ℕ, ◌^◌, ◌≤◌, ◌↔◌, max, ℤ, pos, ◌+ℤ◌, ◌-ℤ◌, ◌*ℤ◌, ◌<ℤ◌, unsigned_abs, int_div, IsTrue, IsSome, IfSome};
ghost use Rattle.affine.specs.Gcd.{gcd as greatest_divisor};
ghost use Rattle.affine.specs.Map.{IsMap, IsLowest, IsWithin, IsWithinBound, common_divisor, lowest_terms, matrix_product, product};
ghost use Rattle.affine.specs.Point.{Point, IsSamePoint, image};

use fractions::gcd;
use std::marker::Model;

/// The numbers of a map, which takes (x, y) to ((a x + c y + e) / q, (b x + d y + f) / q).
#[derive(Clone, Copy, Debug, PartialEq, Eq, Hash)]
pub struct Parts {
    pub a: i128,
    pub b: i128,
    pub c: i128,
    pub d: i128,
    pub e: i128,
    pub f: i128,
    pub q: i128,
}

/// An affine map in units, by the matrix of CSS Transforms 1. Its parts are in lowest terms, with a positive
/// denominator, and within the bound: a, b, c, d and q are at most 2^44 in size, e and f at most 2^70.
#[derive(Clone, Copy, Debug, PartialEq, Eq, Hash)]
pub struct Map {
    parts: Parts,
}

impl Model for Map {
    ghost use Rattle.affine.specs.declared.map.Parts.{Parts};
    ghost use Rattle.affine.specs.Map.{IsMap};

    ghost Value = { Parts };

    ghost view = { λ m. m.parts };

    ghost invariant = { λ m. IsMap m.parts };

    ghost inverse = { λ p. record { parts = p } };
}

impl Map {
    /// The seven numbers of the map.
    pub fn parts(&self) -> Parts
        ensures value { result ≡ self.now }
        ensures map { IsMap self.now }
    {
        self.parts
    }
}

/// The map of these parts, or None where their lowest terms pass the bound. Each is at most 2^120 in size.
pub fn from_parts(p: &Parts) -> Option<Map>
    requires size { IsWithin p.now (2 ^ 120) (2 ^ 120) }
    requires positive { pos 0 <ℤ p.now.q }
    ensures bound { IsSome result ↔ IsWithinBound (lowest_terms p.now) }
    ensures value { IfSome result (λ m. m ≡ lowest_terms p.now) }
    ensures lowest { IsLowest (lowest_terms p.now) }
    ensures meaning { (at : Point) → IsSamePoint (image (lowest_terms p.now) at) (image p.now at) }
{
    let parts = reduced(p);
    if is_within_bound(&parts) {
        Some(Map { parts })
    } else {
        None
    }
}

/// The map that does `right` first and then `left`, or None where its lowest terms pass the bound.
pub fn compose(left: &Map, right: &Map) -> Option<Map>
    ensures bound { IsSome result ↔ IsWithinBound (product left.now right.now) }
    ensures value { IfSome result (λ m. m ≡ product left.now right.now) }
    ensures meaning { (at : Point) → IsSamePoint (image (product left.now right.now) at) (image left.now (image right.now at)) }
{
    from_parts(&multiplied(&left.parts, &right.parts))
}

// The map of parts that are within the bound already.
pub(crate) fn narrow_map(p: &Parts) -> Map
    requires bound { IsWithinBound p.now }
    requires positive { pos 0 <ℤ p.now.q }
    ensures { result ≡ lowest_terms p.now }
{
    Map { parts: reduced(p) }
}

// The same map in lowest terms.
fn reduced(p: &Parts) -> Parts
    requires size { IsWithin p.now (2 ^ 120) (2 ^ 120) }
    requires positive { pos 0 <ℤ p.now.q }
    ensures value { result ≡ lowest_terms p.now }
    ensures lowest { IsLowest (lowest_terms p.now) }
    ensures meaning { (at : Point) → IsSamePoint (image (lowest_terms p.now) at) (image p.now at) }
{
    let by = divisor_of_all(p);
    Parts {
        a: quotient(p.a, by),
        b: quotient(p.b, by),
        c: quotient(p.c, by),
        d: quotient(p.d, by),
        e: quotient(p.e, by),
        f: quotient(p.f, by),
        q: quotient(p.q, by),
    }
}

// The greatest number that divides all seven parts.
fn divisor_of_all(p: &Parts) -> i128
    requires size { IsWithin p.now (2 ^ 120) (2 ^ 120) }
    requires positive { pos 0 <ℤ p.now.q }
    ensures value { result ≡ pos (common_divisor p.now) }
    ensures some { pos 0 <ℤ result }
{
    let of_two = divisor(p.f, p.q);
    let of_three = divisor(p.e, of_two);
    let of_four = divisor(p.d, of_three);
    let of_five = divisor(p.c, of_four);
    let of_six = divisor(p.b, of_five);
    divisor(p.a, of_six)
}

// The greatest number that divides both.
fn divisor(a: i128, b: i128) -> i128
    requires first_size { unsigned_abs a ≤ 2 ^ 126 }
    requires second_size { unsigned_abs b ≤ 2 ^ 126 }
    ensures value { result ≡ pos (greatest_divisor (unsigned_abs a) (unsigned_abs b)) }
    ensures size { unsigned_abs result ≤ 2 ^ 126 }
{
    gcd(a, b)
}

// The quotient by a positive number, rounded towards 0.
fn quotient(n: i128, by: i128) -> i128
    requires { pos 0 <ℤ by }
    ensures { result ≡ int_div n by }
{
    n / by
}

// Whether the parts are within the bound on maps.
fn is_within_bound(p: &Parts) -> bool
    ensures { IsTrue result ↔ IsWithinBound p.now }
{
    matrix_size(p) <= 1 << 44 && p.e.unsigned_abs().max(p.f.unsigned_abs()) <= 1 << 70
}

// The size of the largest of the parts a, b, c, d and q.
fn matrix_size(p: &Parts) -> u128
    ensures { result ≡ max (max (max (unsigned_abs p.now.a) (unsigned_abs p.now.b)) (max (unsigned_abs p.now.c) (unsigned_abs p.now.d))) (unsigned_abs p.now.q) }
{
    let first = p.a.unsigned_abs().max(p.b.unsigned_abs());
    let second = p.c.unsigned_abs().max(p.d.unsigned_abs());
    first.max(second).max(p.q.unsigned_abs())
}

// The product of two matrices, not yet in lowest terms.
fn multiplied(left: &Parts, right: &Parts) -> Parts
    requires left_bound { IsWithinBound left.now }
    requires right_bound { IsWithinBound right.now }
    ensures value { result ≡ matrix_product left.now right.now }
    ensures size { IsWithin result (2 ^ 120) (2 ^ 120) }
{
    Parts {
        a: sum_of_products(left.a, right.a, left.c, right.b),
        b: sum_of_products(left.b, right.a, left.d, right.b),
        c: sum_of_products(left.a, right.c, left.c, right.d),
        d: sum_of_products(left.b, right.c, left.d, right.d),
        e: moved(
            sum_of_products(left.a, right.e, left.c, right.f),
            left.e,
            right.q,
        ),
        f: moved(
            sum_of_products(left.b, right.e, left.d, right.f),
            left.f,
            right.q,
        ),
        q: times(left.q, right.q),
    }
}

// a x + c y, for two parts of a matrix and two numbers of at most 71 bits.
pub(crate) fn sum_of_products(a: i128, x: i128, c: i128, y: i128) -> i128
    requires a_size { unsigned_abs a ≤ 2 ^ 44 }
    requires x_size { unsigned_abs x ≤ 2 ^ 71 }
    requires c_size { unsigned_abs c ≤ 2 ^ 44 }
    requires y_size { unsigned_abs y ≤ 2 ^ 71 }
    ensures value { result ≡ a *ℤ x +ℤ c *ℤ y }
    ensures size { unsigned_abs result ≤ 2 ^ 116 }
{
    times(a, x) + times(c, y)
}

// a x - c y, for two parts of a matrix and two numbers of at most 71 bits.
pub(crate) fn difference_of_products(a: i128, x: i128, c: i128, y: i128) -> i128
    requires a_size { unsigned_abs a ≤ 2 ^ 44 }
    requires x_size { unsigned_abs x ≤ 2 ^ 71 }
    requires c_size { unsigned_abs c ≤ 2 ^ 44 }
    requires y_size { unsigned_abs y ≤ 2 ^ 71 }
    ensures value { result ≡ a *ℤ x -ℤ c *ℤ y }
    ensures size { unsigned_abs result ≤ 2 ^ 116 }
{
    times(a, x) - times(c, y)
}

// A sum moved by the product of a part of the translation and a denominator.
fn moved(sum: i128, e: i128, q: i128) -> i128
    requires sum_size { unsigned_abs sum ≤ 2 ^ 116 }
    requires e_size { unsigned_abs e ≤ 2 ^ 70 }
    requires q_size { unsigned_abs q ≤ 2 ^ 44 }
    ensures value { result ≡ sum +ℤ e *ℤ q }
    ensures size { unsigned_abs result ≤ 2 ^ 117 }
{
    sum + times(q, e)
}

// The product of a part of a matrix and a number of at most 71 bits.
pub(crate) fn times(a: i128, x: i128) -> i128
    requires a_size { unsigned_abs a ≤ 2 ^ 44 }
    requires x_size { unsigned_abs x ≤ 2 ^ 71 }
    ensures value { result ≡ a *ℤ x }
    ensures size { unsigned_abs result ≤ 2 ^ 115 }
{
    a * x
}

#[cfg(test)]
mod tests;
