//! Sums of a row's numbers, each times what stands at its place.
ghost use Rattle.std.specs.Prelude.{◌≡◌, ◌<◌, ℕ, ℤ, length};
ghost use Rattle.bz_algebra.specs.Sums.{AllBelow};
ghost use Rattle.bz_num.specs.Dense.{entry};
ghost use Rattle.bz_num.specs.Fold.{fold_of, pairs_at};

use crate::products::{Folding, WideSum};
use crate::row::SparseRow;

/// Numbers by place.
pub trait Numbers {
    /// How many places there are: they run from 0 to below this.
    ghost count: { Self → ℕ };

    /// The number that stands at each place.
    ghost at: { Self → ℕ → ℤ };

    /// The number at a place.
    fn number(&self, place: u32) -> i128
        requires { place < count self.now }
        ensures { result ≡ at self.now place };
}

/// The sum of the row's numbers, each times the number at its place, or the first of these pairs at which it is wide.
pub fn sum_at<N: Numbers>(row: &SparseRow, numbers: &N) -> Result<i128, WideSum>
    requires { AllBelow (N.count numbers.now) row.now }
    ensures { result ≡ fold_of (pairs_at row.now (N.at numbers.now)) }
{
    let mut folding = Folding::new();
    for entry in row.as_slice() {
        folding.push(entry.1, numbers.number(entry.0))?;
    }
    Ok(folding.sum())
}

/// The numbers of a list.
#[derive(Clone, Copy)]
struct Listed<'a> {
    numbers: &'a [i128],
}

impl Numbers for Listed<'_> {
    ghost count = { λ l. length l.numbers.now };

    ghost at = { λ l. entry l.numbers.now };

    fn number(&self, place: u32) -> i128 {
        self.numbers[place as usize]
    }
}

/// The sum of the row's numbers, each times the one of the list at its place, or the first of these pairs at which
/// it is wide.
pub fn row_sum(row: &SparseRow, numbers: &[i128]) -> Result<i128, WideSum>
    requires { AllBelow (length numbers.now) row.now }
    ensures { result ≡ fold_of (pairs_at row.now (entry numbers.now)) }
{
    sum_at(row, &Listed { numbers })
}
