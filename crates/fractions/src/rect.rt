ghost use Rattle.std.specs.Prelude.{◌≡◌, ◌↔◌, ℤ, ◌≤ℤ◌, ◌<ℤ◌, IsTrue};
ghost use Rattle.std.specs.Int.{int_max, int_min};
ghost use Rattle.fractions.specs.Rect.{Holds, IsEmpty};

/// A point in whole units of 1/64 px.
#[derive(Clone, Copy, Debug, PartialEq, Eq, Hash)]
pub struct Spot {
    pub x: i64,
    pub y: i64,
}

/// A rectangle in whole units of 1/64 px. It is half open: it holds its left and top edges, and not its right and
/// bottom ones. One whose edges meet or cross holds no point.
#[derive(Clone, Copy, Debug, PartialEq, Eq, Hash)]
pub struct Rect {
    pub l: i64,
    pub t: i64,
    pub r: i64,
    pub b: i64,
}

impl Rect {
    /// The part that both rectangles share. Where they share no point, it is empty.
    pub fn meet(&self, other: &Rect) -> Rect
        ensures left { result.l ≡ int_max self.now.l other.now.l }
        ensures top { result.t ≡ int_max self.now.t other.now.t }
        ensures right { result.r ≡ int_min self.now.r other.now.r }
        ensures bottom { result.b ≡ int_min self.now.b other.now.b }
        ensures points { (x y : ℤ) → Holds result x y ↔ (Holds self.now x y × Holds other.now x y) }
    {
        Rect {
            l: self.l.max(other.l),
            t: self.t.max(other.t),
            r: self.r.min(other.r),
            b: self.b.min(other.b),
        }
    }

    /// Whether the point lies in the rectangle, in the rectangle's own units.
    pub fn holds(&self, x: i128, y: i128) -> bool
        ensures { IsTrue result ↔ Holds self.now x y }
    {
        lies_within(self.l, x, self.r) && lies_within(self.t, y, self.b)
    }

    /// Whether the rectangle holds no point.
    pub fn is_empty(&self) -> bool
        ensures edges { IsTrue result ↔ IsEmpty self.now }
        ensures points { IsTrue result ↔ ((x y : ℤ) → ¬ Holds self.now x y) }
    {
        self.r <= self.l || self.b <= self.t
    }
}

// Whether x lies between the two edges, of which the first is in and the second is not.
fn lies_within(from: i64, x: i128, before: i64) -> bool
    ensures { IsTrue result ↔ ((from ≤ℤ x) × (x <ℤ before)) }
{
    i128::from(from) <= x && x < i128::from(before)
}

#[cfg(test)]
mod tests;
