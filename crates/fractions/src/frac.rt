ghost use Rattle.std.specs.Prelude.{◌≡◌, ◌≢◌, ◌^◌, ◌≤◌, pos, ◌+ℤ◌, ◌*ℤ◌, ◌<ℤ◌, unsigned_abs};
ghost use Prim.Native.Nat.{◌∣◌};
ghost use Rattle.std.specs.Ordering.{MatchOrdering};
ghost use Rattle.fractions.specs.Fraction.{IsQuotient, IsReduced, IsLess, IsSame, IsWithin};

use crate::division::gcd;
use std::cmp::Ordering;
use std::marker::Model;

/// An exact fraction in lowest terms, with a positive denominator.
#[derive(Clone, Copy, Debug, PartialEq, Eq, Hash)]
pub struct Frac {
    num: i128,
    den: i128,
}

impl Model for Frac {
    ghost use Rattle.fractions.specs.Fraction.{Fraction, IsReduced};

    ghost Value = { Fraction };

    ghost view = { λ f. record { num = f.num; den = f.den } };

    ghost invariant = { λ f. IsReduced (record { num = f.num; den = f.den }) };

    ghost inverse = { λ v. record { num = v.num; den = v.den } };
}

impl Frac {
    /// The fraction n / d. Both are at most 2^126 in size.
    pub fn make(n: i128, d: i128) -> Frac
        requires divisor { d ≢ pos 0 }
        requires dividend_size { unsigned_abs n ≤ 2 ^ 126 }
        requires divisor_size { unsigned_abs d ≤ 2 ^ 126 }
        ensures value { IsQuotient result n d }
        ensures reduced { IsReduced result }
        ensures num_size { unsigned_abs result.num ≤ unsigned_abs n }
        ensures den_size { unsigned_abs result.den ≤ unsigned_abs d }
    {
        if d < 0 {
            reduced(-n, -d)
        } else {
            reduced(n, d)
        }
    }

    /// The numerator, which bears the sign.
    pub fn num(&self) -> i128
        ensures { result ≡ self.now.num }
    {
        self.num
    }

    /// The denominator, which is positive.
    pub fn den(&self) -> i128
        ensures value { result ≡ self.now.den }
        ensures reduced { IsReduced self.now }
    {
        self.den
    }

    /// The exact sum. All four numbers are at most 2^62 in size.
    pub fn add(self, other: Frac) -> Frac
        requires first_size { IsWithin self (2 ^ 62) }
        requires second_size { IsWithin other (2 ^ 62) }
        ensures value { IsQuotient result (self.num *ℤ other.den +ℤ other.num *ℤ self.den) (self.den *ℤ other.den) }
        ensures reduced { IsReduced result }
    {
        let first = crosswise(&self, &other);
        let second = crosswise(&other, &self);
        Frac::make(first + second, denominators(&self, &other))
    }

    /// The exact product. All four numbers are at most 2^62 in size.
    pub fn mul(self, other: Frac) -> Frac
        requires first_size { IsWithin self (2 ^ 62) }
        requires second_size { IsWithin other (2 ^ 62) }
        ensures value { IsQuotient result (self.num *ℤ other.num) (self.den *ℤ other.den) }
        ensures reduced { IsReduced result }
    {
        Frac::make(numerators(&self, &other), denominators(&self, &other))
    }

    /// The exact order of both numbers. All four numbers are at most 2^62 in size.
    pub fn cmp(&self, other: &Frac) -> Ordering
        requires first_size { IsWithin self.now (2 ^ 62) }
        requires second_size { IsWithin other.now (2 ^ 62) }
        ensures { MatchOrdering result (IsLess self.now other.now) (IsSame self.now other.now) (IsLess other.now self.now) }
    {
        crosswise(self, other).cmp(&crosswise(other, self))
    }
}

// The fraction n / d, for a positive d.
fn reduced(n: i128, d: i128) -> Frac
    requires positive { pos 0 <ℤ d }
    requires dividend_size { unsigned_abs n ≤ 2 ^ 126 }
    requires divisor_size { unsigned_abs d ≤ 2 ^ 126 }
    ensures value { IsQuotient result n d }
    ensures reduced { IsReduced result }
    ensures num_size { unsigned_abs result.num ≤ unsigned_abs n }
    ensures den_size { unsigned_abs result.den ≤ unsigned_abs d }
{
    let divisor = gcd(n, d);
    Frac {
        num: exact_quotient(n, divisor),
        den: exact_quotient(d, divisor),
    }
}

// The quotient of a number by a divisor of it.
fn exact_quotient(n: i128, by: i128) -> i128
    requires positive { pos 0 <ℤ by }
    requires divides { unsigned_abs by ∣ unsigned_abs n }
    ensures { result *ℤ by ≡ n }
{
    n / by
}

// The product of two numbers of at most 62 bits each.
fn times(a: i128, b: i128) -> i128
    requires first_size { unsigned_abs a ≤ 2 ^ 62 }
    requires second_size { unsigned_abs b ≤ 2 ^ 62 }
    ensures value { result ≡ a *ℤ b }
    ensures size { unsigned_abs result ≤ 2 ^ 124 }
{
    a * b
}

// The product of the one's numerator and the other's denominator.
fn crosswise(first: &Frac, second: &Frac) -> i128
    requires first_size { IsWithin first.now (2 ^ 62) }
    requires second_size { IsWithin second.now (2 ^ 62) }
    ensures value { result ≡ first.now.num *ℤ second.now.den }
    ensures size { unsigned_abs result ≤ 2 ^ 124 }
{
    times(first.num, second.den)
}

// The product of both numerators.
fn numerators(first: &Frac, second: &Frac) -> i128
    requires first_size { IsWithin first.now (2 ^ 62) }
    requires second_size { IsWithin second.now (2 ^ 62) }
    ensures value { result ≡ first.now.num *ℤ second.now.num }
    ensures size { unsigned_abs result ≤ 2 ^ 124 }
{
    times(first.num, second.num)
}

// The product of both denominators, over which the sum and the product of two fractions stand.
fn denominators(first: &Frac, second: &Frac) -> i128
    requires first_size { IsWithin first.now (2 ^ 62) }
    requires second_size { IsWithin second.now (2 ^ 62) }
    ensures value { result ≡ first.now.den *ℤ second.now.den }
    ensures positive { pos 0 <ℤ result }
    ensures size { unsigned_abs result ≤ 2 ^ 124 }
{
    times(first.den, second.den)
}

#[cfg(test)]
mod tests;
