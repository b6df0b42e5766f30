ghost use Rattle.std.specs.Prelude.{◌≡◌, ◌↔◌, ◌^◌, unsigned_abs, ◌≤ℤ◌, ◌+ℤ◌, ◌-ℤ◌, pos, fold, [], IsTrue, IsNone, IsSomeAnd};
ghost use Rattle.poly_shapes.specs.Extent.{around, widened, bounds_of, Holds, moved_out, AreSidesWithin};

use crate::point::{Bounds, Point};

impl Bounds {
    fn around(p: Point) -> Bounds
        ensures { result ≡ around p }
    {
        Bounds {
            l: p.x,
            t: p.y,
            r: p.x,
            b: p.y,
        }
    }

    /// The least closed rectangle that holds this one and the points.
    pub fn widened_by(self, points: &[Point]) -> Bounds
        ensures { result ≡ fold widened self points.now }
    {
        let mut bounds = self;
        for &p in points {
            bounds = bounds.widened(p);
        }
        bounds
    }

    /// The rectangle with each side, within 2^32, moved out by a width from 0 to 2^32.
    pub fn moved_out(self, width: i64) -> Bounds
        requires sides { AreSidesWithin (2 ^ 32) self }
        requires width_above { pos 0 ≤ℤ width }
        requires width_below { width ≤ℤ pos (2 ^ 32) }
        ensures { result ≡ moved_out (unsigned_abs width) self }
    {
        Bounds {
            l: self.l - width,
            t: self.t - width,
            r: self.r + width,
            b: self.b + width,
        }
    }

    fn widened(self, p: Point) -> Bounds
        ensures { result ≡ widened self p }
    {
        Bounds {
            l: self.l.min(p.x),
            t: self.t.min(p.y),
            r: self.r.max(p.x),
            b: self.b.max(p.y),
        }
    }
}

/// The least closed rectangle that holds the points, in their units; None exactly where there is no point.
pub fn bounds_of(points: &[Point]) -> Option<Bounds>
    ensures value { result ≡ bounds_of points.now }
    ensures absent { IsNone result ↔ (points.now ≡ []) }
{
    match points {
        [] => None,
        [first, rest @ ..] => Some(Bounds::around(*first).widened_by(rest)),
    }
}

/// Whether there are bounds and they hold the point, on their edges too.
pub fn bounds_hold(bounds: Option<Bounds>, at: Point) -> bool
    ensures { IsTrue result ↔ IsSomeAnd bounds (λ b. Holds b at.x at.y) }
{
    bounds.is_some_and(|b| is_between(b.l, at.x, b.r) && is_between(b.t, at.y, b.b))
}

fn is_between(least: i64, at: i64, most: i64) -> bool
    ensures { IsTrue result ↔ (least ≤ℤ at) × (at ≤ℤ most) }
{
    least <= at && at <= most
}

/// Whether there are bounds and, with each side moved out by a width, they hold the point.
pub fn reach_holds(bounds: Option<Bounds>, width: u64, at: Point) -> bool
    ensures { IsTrue result ↔ IsSomeAnd bounds (λ b. Holds (moved_out width b) at.x at.y) }
{
    bounds.is_some_and(|b| {
        is_in_reach(b.l, at.x, b.r, width) && is_in_reach(b.t, at.y, b.b, width)
    })
}

fn is_in_reach(least: i64, at: i64, most: i64, width: u64) -> bool
    ensures { IsTrue result ↔ ((least -ℤ pos width) ≤ℤ at) × (at ≤ℤ (most +ℤ pos width)) }
{
    is_not_before(least, width, at) && is_not_beyond(most, width, at)
}

fn is_not_before(least: i64, width: u64, at: i64) -> bool
    ensures { IsTrue result ↔ ((least -ℤ pos width) ≤ℤ at) }
{
    i128::from(least) - i128::from(width) <= i128::from(at)
}

fn is_not_beyond(most: i64, width: u64, at: i64) -> bool
    ensures { IsTrue result ↔ (at ≤ℤ (most +ℤ pos width)) }
{
    i128::from(at) <= i128::from(most) + i128::from(width)
}
