ghost use Rattle.std.specs.Prelude.{◌≡◌, ◌≢◌, ◌^◌, ◌≤◌, pos, ◌+ℤ◌, ◌*ℤ◌, ◌<ℤ◌, ◌≤ℤ◌, unsigned_abs};
ghost use Rattle.std.specs.Int.{IsGcd};
ghost use Rattle.fractions.specs.Division.{IsFloor, IsCeiling};

/// The greatest number that divides both, and 0 for two zeros. Both are at most 2^126 in size, and so is the answer.
pub fn gcd(a: i128, b: i128) -> i128
    requires first_size { unsigned_abs a ≤ 2 ^ 126 }
    requires second_size { unsigned_abs b ≤ 2 ^ 126 }
    ensures greatest { IsGcd (unsigned_abs a) (unsigned_abs b) (unsigned_abs result) }
    ensures not_negative { pos 0 ≤ℤ result }
    ensures size { unsigned_abs result ≤ 2 ^ 126 }
{
    let mut x = a.unsigned_abs();
    let mut y = b.unsigned_abs();
    while y != 0 {
        let rest = x % y;
        x = y;
        y = rest;
    }
    x as i128
}

/// The quotient n / d rounded down, for a divisor of either sign. Both are at most 2^126 in size.
pub fn floor_div(n: i128, d: i128) -> i128
    requires divisor { d ≢ pos 0 }
    requires dividend_size { unsigned_abs n ≤ 2 ^ 126 }
    requires divisor_size { unsigned_abs d ≤ 2 ^ 126 }
    ensures floor { IsFloor n d result }
    ensures size { unsigned_abs result ≤ 2 ^ 126 }
{
    if d < 0 {
        floor_by_positive(-n, -d)
    } else {
        floor_by_positive(n, d)
    }
}

/// The quotient n / d rounded up, for a divisor of either sign. Both are at most 2^126 in size.
pub fn ceil_div(n: i128, d: i128) -> i128
    requires divisor { d ≢ pos 0 }
    requires dividend_size { unsigned_abs n ≤ 2 ^ 126 }
    requires divisor_size { unsigned_abs d ≤ 2 ^ 126 }
    ensures ceiling { IsCeiling n d result }
    ensures size { unsigned_abs result ≤ 2 ^ 126 }
{
    -floor_div(-n, d)
}

// The same for a positive divisor, by which the remainder that isn't negative is what rounding down takes away.
fn floor_by_positive(n: i128, d: i128) -> i128
    requires positive { pos 0 <ℤ d }
    ensures at_most { (result *ℤ d) ≤ℤ n }
    ensures next_above { n <ℤ ((result +ℤ pos 1) *ℤ d) }
    ensures size { unsigned_abs result ≤ unsigned_abs n }
{
    n.div_euclid(d)
}

#[cfg(test)]
mod tests;
