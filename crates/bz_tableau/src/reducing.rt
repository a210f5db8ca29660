//! Rows divided by their greatest common divisor.
ghost use Rattle.std.specs.Prelude.{◌<◌, pos, ◌<ℤ◌};
ghost use Rattle.bz_algebra.specs.Sums.{AllBelow, coef};
ghost use Rattle.bz_num.specs.Row.{IsSparse};
ghost use Rattle.bz_tableau.specs.Dense.{IsReduced};
ghost use Rattle.bz_tableau.specs.Sparse.{spread};

use crate::line::Line;
use bz_num::{SparseRow, primitive};

/// The row of this width with these numbers, divided by their greatest common divisor; in the column `own` it is
/// positive. It takes no memory.
pub fn reduced_line(width: usize, mut terms: SparseRow, own: u32) -> Line
    requires sparse { IsSparse terms }
    requires below { AllBelow width terms }
    requires inside { own < width }
    requires positive { pos 0 <ℤ coef terms own }
    ensures { IsReduced own (spread width terms) result }
{
    let mut none = 0;
    primitive(&mut terms, &mut none);
    Line::from_terms(width, terms)
}
