//! Greatest common divisors.
ghost use Rattle.std.specs.Prelude.{◌≡◌, pos, ◌≤ℤ◌};
ghost use Rattle.std.specs.Int.{IsGcd};
ghost use Rattle.std.specs.Int.RustNames.{unsigned_abs};
ghost use Rattle.bz_algebra.specs.Numbers.{IsNarrow};
ghost use Rattle.bz_num.specs.Dense.{AreNarrow, IsDivisorOf};

/// The greatest common divisor of two numbers, 0 for two zeros.
pub fn gcd(a: i128, b: i128) -> i128
    requires left { IsNarrow a }
    requires right { IsNarrow b }
    ensures divides { IsGcd (unsigned_abs a) (unsigned_abs b) (unsigned_abs result) }
    ensures sign { pos 0 ≤ℤ result }
    ensures narrow { IsNarrow result }
{
    let mut x = a.unsigned_abs();
    let mut y = b.unsigned_abs();
    while y != 0 {
        let rest = x % y;
        x = y;
        y = rest;
    }
    x as i128
}

/// The greatest common divisor of the numbers, 0 where all are 0.
pub fn common_divisor(row: &[i128]) -> i128
    requires { AreNarrow row.now }
    ensures sign { pos 0 ≤ℤ result }
    ensures divisor { IsDivisorOf (unsigned_abs result) row.now }
    ensures narrow { IsNarrow result }
{
    let mut divisor = 0;
    for number in row {
        if divisor == 1 {
            return 1;
        }
        divisor = gcd(divisor, *number);
    }
    divisor
}
