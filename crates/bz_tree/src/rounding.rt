//! The ends of an integer column: its bounds, rounded inward.
ghost use Rattle.std.specs.Prelude.{IfOk};
ghost use Rattle.bz_tree.specs.Ends.{AreEnds, IsLowerEnd, IsUpperEnd, integers_among};

use bz_model::Column;
use std::alloc::{AllocError, Global};

/// The lower end of a column, 0 where there is no bound.
fn lower_end(column: &Column) -> i128
    ensures { IsLowerEnd column.now result }
{
    match column.lower {
        Some(bound) => bound.ceiling(),
        None => 0,
    }
}

/// The upper end of a column, 0 where there is no bound.
fn upper_end(column: &Column) -> i128
    ensures { IsUpperEnd column.now result }
{
    match column.upper {
        Some(bound) => bound.floor(),
        None => 0,
    }
}

/// The lower end of each integer column, in file order. It takes memory for them.
pub fn lower_ends(alloc: Global, columns: &[Column]) -> Result<Vec<i128>, AllocError>
    ensures { IfOk result (λ ends. AreEnds IsLowerEnd (integers_among columns.now) ends.items) }
{
    let mut ends = Vec::new(alloc);
    for column in columns {
        if column.integer {
            ends.push(lower_end(column))?;
        }
    }
    Ok(ends)
}

/// The upper end of each integer column, in file order. It takes memory for them.
pub fn upper_ends(alloc: Global, columns: &[Column]) -> Result<Vec<i128>, AllocError>
    ensures { IfOk result (λ ends. AreEnds IsUpperEnd (integers_among columns.now) ends.items) }
{
    let mut ends = Vec::new(alloc);
    for column in columns {
        if column.integer {
            ends.push(upper_end(column))?;
        }
    }
    Ok(ends)
}
