ghost use Rattle.std.specs.Prelude.{◌≡◌, ◌^◌, ◌≤◌, pos, neg_ℤ, ◌<ℤ◌, ◌≤ℤ◌, unsigned_abs};
ghost use Rattle.affine.specs.Function.{IsInRange, function_map};
ghost use Rattle.affine.specs.Map.{identity_map, translation, scaling, quarter_turns, lowest_terms};

use crate::map::{Map, Parts, narrow_map};
use computed_style::Function;

/// The map that moves no point.
pub fn identity() -> Map
    ensures { result ≡ identity_map }
{
    narrow_map(&Parts {
        a: 1,
        b: 0,
        c: 0,
        d: 1,
        e: 0,
        f: 0,
        q: 1,
    })
}

/// Moves by x / q and y / q units. Both are at most 2^40 in size, and q is from 1 to 2^30. CSS Transforms 1, section 12.
pub fn translate(x: i64, y: i64, q: i64) -> Map
    requires x_size { unsigned_abs x ≤ 2 ^ 40 }
    requires y_size { unsigned_abs y ≤ 2 ^ 40 }
    requires positive { pos 0 <ℤ q }
    requires q_size { unsigned_abs q ≤ 2 ^ 30 }
    ensures { result ≡ translation x y q }
{
    narrow_map(&Parts {
        a: i128::from(q),
        b: 0,
        c: 0,
        d: i128::from(q),
        e: i128::from(x),
        f: i128::from(y),
        q: i128::from(q),
    })
}

/// Stretches by x / q and y / q. Both are at most 2^30 in size, and q is from 1 to 2^30. CSS Transforms 1, section 12.
pub fn scale(x: i64, y: i64, q: i64) -> Map
    requires x_size { unsigned_abs x ≤ 2 ^ 30 }
    requires y_size { unsigned_abs y ≤ 2 ^ 30 }
    requires positive { pos 0 <ℤ q }
    requires q_size { unsigned_abs q ≤ 2 ^ 30 }
    ensures { result ≡ scaling x y q }
{
    narrow_map(&Parts {
        a: i128::from(x),
        b: 0,
        c: 0,
        d: i128::from(y),
        e: 0,
        f: 0,
        q: i128::from(q),
    })
}

/// So many quarter turns, 0 to 3, from the x axis towards the y axis: `rotate` of CSS Transforms 1, section 12, by that
/// many times 90 degrees.
pub fn quarter(turns: u8) -> Map
    requires { turns ≤ 3 }
    ensures { result ≡ quarter_turns turns }
{
    match turns {
        0 => identity(),
        1 => turned(0, 1),
        2 => turned(-1, 0),
        _ => turned(0, -1),
    }
}

/// The map of one transform function, whose numbers are in the ranges of a script. CSS Transforms 1, section 12.
pub fn matrix(function: &Function) -> Map
    requires { IsInRange function.now }
    ensures { result ≡ function_map function.now }
{
    match *function {
        Function::Matrix {
            a,
            b,
            c,
            d,
            e,
            f,
            q,
        } => narrow_map(&Parts {
            a: i128::from(a),
            b: i128::from(b),
            c: i128::from(c),
            d: i128::from(d),
            e: i128::from(e),
            f: i128::from(f),
            q: i128::from(q),
        }),
        Function::Translate { x, y } => translate(x, y, 1),
        Function::Scale { x, y, q } => scale(x, y, q),
        Function::Quarter { turns } => quarter(turns),
    }
}

// The turn that takes (1, 0) to (x, y).
fn turned(x: i128, y: i128) -> Map
    requires x_size { unsigned_abs x ≤ 1 }
    requires y_size { unsigned_abs y ≤ 1 }
    ensures { result ≡ lowest_terms (record { a = x; b = y; c = neg_ℤ y; d = x; e = pos 0; f = pos 0; q = pos 1 }) }
{
    narrow_map(&Parts {
        a: x,
        b: y,
        c: -y,
        d: x,
        e: 0,
        f: 0,
        q: 1,
    })
}

#[cfg(test)]
mod tests;
