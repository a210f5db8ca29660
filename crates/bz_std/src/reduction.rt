//! Numbers divided by their greatest common divisor.
ghost use Rattle.std.specs.Prelude.{◌≢◌, pos, ◌<ℤ◌, length};
ghost use Rattle.std.specs.Int.RustNames.{unsigned_abs};
ghost use Rattle.bz_algebra.specs.Numbers.{IsNarrow};
ghost use Rattle.bz_num.specs.Dense.{AreNarrow, DividesRow, IsDivided, entry};
ghost use Rattle.bz_std.specs.LowestForms.{IsLowestOf};

use bz_num::{Items, common_divisor, divide_all, exact_quotient, gcd};

/// The numbers divided by a common divisor. It takes no memory.
pub(crate) fn divided_by(mut numbers: Vec<i128>, divisor: i128) -> Items<i128>
    requires narrow { AreNarrow numbers.items }
    requires divisor_narrow { IsNarrow divisor }
    requires nonzero { divisor ≢ pos 0 }
    requires divides { DividesRow (unsigned_abs divisor) numbers.items }
    ensures { IsDivided divisor numbers.items result }
{
    divide_all(numbers.as_mut_slice(), divisor);
    Items::from_vec(numbers)
}

/// The denominator and the numbers over it, divided by their greatest common divisor. It takes no memory.
pub fn lowest(numbers: Vec<i128>, den: i128) -> (i128, Items<i128>)
    requires narrow { AreNarrow numbers.items }
    requires den_narrow { IsNarrow den }
    requires positive { pos 0 <ℤ den }
    ensures lowest { IsLowestOf (length numbers.items) den (entry numbers.items) result.0 result.1 }
    ensures positive { pos 0 <ℤ result.0 }
    ensures den_narrow { IsNarrow result.0 }
    ensures narrow { AreNarrow result.1 }
{
    let divisor = gcd(den, common_divisor(numbers.as_slice()));
    (exact_quotient(den, divisor), divided_by(numbers, divisor))
}
