//! Rows divided by their greatest common divisor.
ghost use Rattle.std.specs.Prelude.{◌≡◌, pos, ◌≤ℤ◌, ◌<ℤ◌, ◌*ℤ◌};
ghost use Rattle.std.specs.Int.RustNames.{unsigned_abs};
ghost use Rattle.bz_algebra.specs.Numbers.{IsNarrow};
ghost use Rattle.bz_num.specs.Primitive.{IsRowGcd, times_entries};
ghost use Rattle.bz_num.specs.Row.{IsSparse};

use crate::divisor::gcd;
use crate::row::SparseRow;

/// Divides the row and the right side by their greatest common divisor and answers it. Where all
/// are zero it answers 0 and changes nothing.
pub fn primitive(row: &mut SparseRow, rhs: &mut i128) -> i128
    requires { IsNarrow rhs.old }
    ensures sign { pos 0 ≤ℤ result }
    ensures divisor { IsRowGcd (unsigned_abs result) row.old rhs.old }
    ensures numbers { row.old ≡ times_entries result row.new }
    ensures side { rhs.old ≡ result *ℤ rhs.new }
    ensures zero { result ≡ pos 0 → (row.new ≡ row.old) × (rhs.new ≡ rhs.old) }
    ensures reduced { pos 0 <ℤ result → IsRowGcd 1 row.new rhs.new }
    ensures narrow { IsNarrow rhs.new }
{
    let divisor = row_divisor(row.as_slice(), *rhs);
    if divisor > 1 {
        row.divide_by(divisor);
        *rhs /= divisor;
    }
    divisor
}

// The greatest common divisor of the entries' numbers and the right side.
fn row_divisor(entries: &[(u32, i128)], rhs: i128) -> i128
    requires sparse { IsSparse entries.now }
    requires narrow { IsNarrow rhs }
    ensures sign { pos 0 ≤ℤ result }
    ensures divisor { IsRowGcd (unsigned_abs result) entries.now rhs }
    ensures narrow { IsNarrow result }
{
    let mut divisor = gcd(rhs, 0);
    for entry in entries {
        if divisor == 1 {
            return 1;
        }
        divisor = gcd(divisor, entry.1);
    }
    divisor
}
