//! Decimals as whole numbers, a power of ten as large, and sums of such numbers. A number that is wide is told exactly, and
//! no product or sum on the way is wider than the number itself.
ghost use Rattle.std.specs.Prelude.{◌≡◌, ◌<◌, ◌^◌, pos, ◌+ℤ◌, ◌-ℤ◌, SomeIff};
ghost use Rattle.std.specs.Int.RustNames.{unsigned_abs};
ghost use Rattle.bz_algebra.specs.Numbers.{IsNarrow};
ghost use Rattle.bz_mps.specs.NumbersMade.{IsScalable};
ghost use Rattle.bz_mps.specs.ScaledRows.{scaled};

use crate::bound_numbers::power_of_ten;
use bz_num::{Dec, narrow_negation};

/// The size of a decimal, 10^digits times as large, where it is below 2^128.
pub(crate) fn scaled_size(digits: u32, number: Dec) -> Option<u128>
    requires { IsScalable digits number }
    ensures { SomeIff result (unsigned_abs (scaled digits number) < 2 ^ 128) (unsigned_abs (scaled digits number)) }
{
    let size = number.mant.unsigned_abs();
    if size == 0 {
        return Some(0);
    }
    let power = (number.exp + digits as i32) as u32;
    if power > 38 {
        return None;
    }
    size.checked_mul(power_of_ten(power) as u128)
}

/// The number of this size, where it is not wide.
fn narrow_size(size: u128) -> Option<i128>
    ensures { SomeIff result (size < 2 ^ 127) (pos size) }
{
    if size <= i128::MAX as u128 {
        Some(size as i128)
    } else {
        None
    }
}

/// A decimal, 10^digits times as large, where that is not wide.
pub(crate) fn scaled_number(digits: u32, number: Dec) -> Option<i128>
    requires { IsScalable digits number }
    ensures { SomeIff result (IsNarrow (scaled digits number)) (scaled digits number) }
{
    let size = narrow_size(scaled_size(digits, number)?)?;
    Some(if number.mant < 0 { -size } else { size })
}

/// The number and a size together, where that is not wide.
pub(crate) fn raised(number: i128, size: u128) -> Option<i128>
    requires { IsNarrow number }
    ensures { SomeIff result (IsNarrow (number +ℤ pos size)) (number +ℤ pos size) }
{
    let from = number.unsigned_abs();
    if number >= 0 {
        narrow_size(from.checked_add(size)?)
    } else if from > size {
        Some(-((from - size) as i128))
    } else {
        narrow_size(size - from)
    }
}

/// The number less a size, where that is not wide.
pub(crate) fn lowered(number: i128, size: u128) -> Option<i128>
    requires { IsNarrow number }
    ensures { SomeIff result (IsNarrow (number -ℤ pos size)) (number -ℤ pos size) }
{
    Some(narrow_negation(raised(narrow_negation(number), size)?))
}
