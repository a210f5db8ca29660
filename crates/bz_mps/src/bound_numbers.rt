//! Bounds as fractions in lowest terms.
ghost use Rattle.std.specs.Prelude.{◌≡◌, ◌≤◌, ◌^◌, pos};
ghost use Rattle.bz_facts.specs.SoundFacts.{IsFinite};
ghost use Rattle.bz_mps.specs.ColumnEnds.{IsFractionOf};

use bz_num::{Dec, Frac};

/// 10 to this power.
pub(crate) fn power_of_ten(exponent: u32) -> i128
    requires { exponent ≤ 38 }
    ensures { result ≡ pos (10 ^ exponent) }
{
    10_u128.pow(exponent) as i128
}

/// The fraction of a finite decimal, in lowest terms.
pub(crate) fn fraction_of(number: Dec) -> Frac
    requires { IsFinite number }
    ensures { IsFractionOf number result }
{
    let power = power_of_ten(number.exp.unsigned_abs());
    if number.exp < 0 {
        return Frac::reduced(number.mant, power);
    }
    Frac::reduced(number.mant * power, 1)
}
