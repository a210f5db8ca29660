//! Fractions of whole numbers.
ghost use Rattle.std.specs.Prelude.{pos, ◌<ℤ◌};
ghost use Rattle.bz_algebra.specs.Numbers.{IsNarrow};

use crate::division::{divide, exact_quotient};
use crate::divisor::gcd;

/// The number num / den, with den at least 1. It need not be in lowest terms.
#[derive(Clone, Copy, Debug)]
pub struct Frac {
    /// The numerator.
    pub num: i128,
    /// The denominator, at least 1.
    pub den: i128,
    pub ghost positive: { pos 0 <ℤ den },
    pub ghost narrow_num: { IsNarrow num },
    pub ghost narrow_den: { IsNarrow den },
}

impl Frac {
    ghost use Rattle.bz_num.specs.Lowest.{IsLowest};
    ghost use Rattle.bz_num.specs.Rounding.{IsCeiling, IsFloor};

    /// The fraction num / den, in lowest terms.
    pub fn reduced(num: i128, den: i128) -> Frac
        requires num { IsNarrow num }
        requires den { IsNarrow den }
        requires positive { pos 0 <ℤ den }
        ensures { IsLowest num den result }
    {
        let divisor = gcd(num, den);
        Frac {
            num: exact_quotient(num, divisor),
            den: exact_quotient(den, divisor),
        }
    }

    /// The greatest whole number that is at most the fraction.
    pub fn floor(self) -> i128
        ensures value { IsFloor self result }
        ensures narrow { IsNarrow result }
    {
        divide(self.num, self.den).0
    }

    /// The least whole number that is at least the fraction.
    pub fn ceiling(self) -> i128
        ensures value { IsCeiling self result }
        ensures narrow { IsNarrow result }
    {
        let (quotient, rest) = divide(self.num, self.den);
        if rest > 0 { quotient + 1 } else { quotient }
    }
}
