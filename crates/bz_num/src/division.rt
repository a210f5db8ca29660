//! Division with a rest, and without one.
ghost use Rattle.std.specs.Prelude.{◌≡◌, ◌≢◌, pos, ◌+ℤ◌, ◌*ℤ◌, ◌<ℤ◌, ◌≤ℤ◌};
ghost use Rattle.std.specs.Int.{◌∣◌};
ghost use Rattle.std.specs.Int.RustNames.{unsigned_abs};
ghost use Rattle.bz_algebra.specs.Numbers.{IsNarrow};
ghost use Rattle.bz_num.specs.Dense.{AreNarrow, DividesRow, IsDivided};

/// The quotient rounded down, and the rest, from 0 to below the divisor, which is at least 1.
pub fn divide(num: i128, den: i128) -> (i128, i128)
    requires { pos 0 <ℤ den }
    ensures whole { ((result.0 *ℤ den) +ℤ result.1) ≡ num }
    ensures at_least { pos 0 ≤ℤ result.1 }
    ensures below { result.1 <ℤ den }
{
    (num.div_euclid(den), num.rem_euclid(den))
}

/// The quotient of a number by one of its divisors, of either sign.
pub fn exact_quotient(number: i128, divisor: i128) -> i128
    requires number_narrow { IsNarrow number }
    requires divisor_narrow { IsNarrow divisor }
    requires nonzero { divisor ≢ pos 0 }
    requires divides { unsigned_abs divisor ∣ unsigned_abs number }
    ensures value { number ≡ divisor *ℤ result }
    ensures narrow { IsNarrow result }
{
    number / divisor
}

/// Divides each number by a common divisor, of either sign.
pub fn divide_all(row: &mut [i128], divisor: i128)
    requires narrow { AreNarrow row.old }
    requires divisor_narrow { IsNarrow divisor }
    requires nonzero { divisor ≢ pos 0 }
    requires divides { DividesRow (unsigned_abs divisor) row.old }
    ensures { IsDivided divisor row.old row.new }
{
    if divisor == 1 {
        return;
    }
    for j in 0..row.len() {
        row[j] = exact_quotient(row[j], divisor);
    }
}
