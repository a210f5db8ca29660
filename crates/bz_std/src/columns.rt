//! Rows over two columns for each variable, which is the first less the second: variable j has the columns 2 j and
//! 2 j + 1.
ghost use Rattle.std.specs.Prelude.{◌≡◌, ◌<◌, ◌*◌, ◌+◌, ◌++◌, ◌∷◌, [], IfOk, OnOk};
ghost use Rattle.bz_algebra.specs.Numbers.{IsNarrow};
ghost use Rattle.bz_algebra.specs.Sums.{AllBelow};
ghost use Rattle.bz_num.specs.Row.{entry_at};
ghost use Rattle.bz_model.specs.Limits.{list_limit};
ghost use Rattle.bz_std.specs.Posed.{over_columns, pair_of};

use bz_num::{OutOfMemory, SparseRow, narrow_negation};
use bz_tableau::LpRow;
use std::alloc::{AllocError, Global};

/// Adds the two columns of a variable with this number.
fn push_pair(entries: &mut Vec<(u32, i128)>, variable: u32, number: i128) -> Result<(), AllocError>
    requires few { variable < list_limit }
    requires narrow { IsNarrow number }
    ensures { OnOk result (entries.new.items ≡ entries.old.items ++ pair_of variable number) }
{
    entries.push((2 * variable, number))?;
    entries.push((2 * variable + 1, narrow_negation(number)))?;
    Ok(())
}

/// The row over columns of a row over variables.
pub(crate) fn row_over_columns(alloc: Global, terms: &SparseRow) -> Result<SparseRow, OutOfMemory>
    requires { AllBelow list_limit terms.now }
    ensures { IfOk result (λ row. row ≡ over_columns terms.now) }
{
    let mut entries = Vec::new(alloc);
    for entry in terms.as_slice() {
        push_pair(&mut entries, entry.0, entry.1)?;
    }
    Ok(SparseRow::from_vec(entries))
}

/// Adds a number, at a variable above all of the row's; 0 adds nothing.
pub(crate) fn push_variable(
    row: &mut SparseRow,
    variable: u32,
    number: i128,
) -> Result<(), OutOfMemory>
    requires few { variable < 2 * list_limit }
    requires above { AllBelow (2 * variable) row.old }
    requires narrow { IsNarrow number }
    ensures value { OnOk result (row.new ≡ row.old ++ over_columns (entry_at variable number)) }
    ensures below { OnOk result (AllBelow (2 * (variable + 1)) row.new) }
{
    row.push(2 * variable, number)?;
    row.push(2 * variable + 1, narrow_negation(number))?;
    Ok(())
}

/// Adds a row at the end.
pub(crate) fn push_row(rows: &mut Vec<LpRow>, row: LpRow) -> Result<(), OutOfMemory>
    ensures { OnOk result (rows.new.items ≡ rows.old.items ++ row ∷ []) }
{
    rows.push(row).map_err(|_| OutOfMemory)
}
