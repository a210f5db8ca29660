//! The numbers of fields.
ghost use Rattle.std.specs.Prelude.{◌≡◌, ◌≤◌, ◌+ℤ◌, pos, IfOk};
ghost use Rattle.std.specs.Int.RustNames.{unsigned_abs};
ghost use Rattle.bz_num.specs.Decimals.{IsWithinLimits};
ghost use Rattle.bz_facts.specs.LineAnswers.{Passes};
ghost use Rattle.bz_facts.specs.LineFacts.{number_of};
ghost use Rattle.bz_facts.specs.LineTests.{number_tests};
ghost use Rattle.bz_facts.specs.Spellings.{is_below_zero as below_test, is_infinite as infinite_test};

use crate::faults::MpsKind;
use bz_num::{Dec, NumFault, read_decimal};

/// The number that a field spells.
pub(crate) fn number(digits: &[u8]) -> Result<Dec, MpsKind>
    ensures spelled { Passes (number_tests digits.now) (λ d. d ≡ number_of digits.now) result }
    ensures within { IfOk result IsWithinLimits }
{
    match read_decimal(digits) {
        Ok(number) => Ok(number),
        Err(NumFault::Form { at: _ }) => Err(MpsKind::Number),
        Err(NumFault::TooWide) => Err(MpsKind::TooWide),
    }
}

/// An exponent within the limits and 30 more.
fn shift_of(exponent: i32) -> u32
    requires { unsigned_abs exponent ≤ 30 }
    ensures { result ≡ unsigned_abs (exponent +ℤ pos 30) }
{
    (exponent + 30).unsigned_abs()
}

/// Whether a number is 10^20 or more in size.
pub(crate) fn is_infinite(number: Dec) -> bool
    requires { IsWithinLimits number }
    ensures { result ≡ infinite_test number }
{
    // The size is `size` times 10^shift, and the bound 10^50.
    let size = number.mant.unsigned_abs();
    let shift = shift_of(number.exp);
    if shift >= 50 {
        return size > 0;
    }
    if shift <= 20 {
        return false;
    }
    size >= 10_u128.pow(50 - shift)
}

/// Whether a number is below zero.
pub(crate) fn is_below_zero(number: Dec) -> bool
    ensures { result ≡ below_test number }
{
    number.mant < 0
}
