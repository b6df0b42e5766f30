ghost use Rattle.std.specs.Prelude.{◌≡◌, ◌^◌, ◌<◌, ◌≤◌, pos, unsigned_abs};

/// A factor from 0 to 1 that radii are multiplied by, as a fraction.
#[derive(Clone, Copy)]
pub struct Factor {
    over: u64,
    under: u64,
    ghost positive: { 0 < under },
    ghost at_most_one: { over ≤ under },
    ghost small: { under ≤ 2 ^ 21 },
}

impl Factor {
    ghost use Rattle.corner_shapes.specs.Overlap.{one, lesser, share, used_radius};
    ghost use Rattle.corner_shapes.specs.Factor.{fraction_of};

    pub fn one() -> Factor
        ensures { fraction_of result ≡ one }
    {
        Factor { over: 1, under: 1 }
    }

    /// The lesser of this factor and of a side's length over the sum of the radii on it.
    pub fn limited(self, length: u64, sum: u64) -> Factor
        requires length { length ≤ 2 ^ 27 }
        requires sum { sum ≤ 2 ^ 21 }
        ensures { fraction_of result ≡ lesser (fraction_of self) (share length sum) }
    {
        if length * self.under < self.over * sum {
            Factor {
                over: length,
                under: sum,
            }
        } else {
            self
        }
    }

    /// A radius in units times this factor, in fine units, rounded down.
    pub fn used(self, radius: i64) -> i64
        requires { unsigned_abs radius ≤ 2 ^ 20 }
        ensures { result ≡ pos (used_radius (fraction_of self) (unsigned_abs radius)) }
    {
        (64 * self.over * radius.unsigned_abs() / self.under) as i64
    }
}
