//! The integer columns by their positions in the master.
ghost use Rattle.std.specs.Prelude.{◌≡◌, ◌==◌, IfOk};
ghost use Rattle.std.specs.List.{position};
ghost use Rattle.bz_model.specs.Splits.{IsSplit};
ghost use Rattle.bz_tree.specs.Integers.{positions_of};

use bz_model::Split;
use std::alloc::{AllocError, Global};

/// The position of each integer column in the master, in file order. It takes memory for them.
pub fn integer_positions(alloc: Global, split: &Split) -> Result<Vec<u32>, AllocError>
    ensures positions { IfOk result (λ positions. positions.items ≡ positions_of split.now.model split.now.part) }
    ensures split { IfOk result (λ _. IsSplit split.now) }
{
    let columns = split.model().columns.as_slice();
    let mut positions = Vec::new(alloc);
    for (position, number) in split.columns_of(0).iter().enumerate() {
        let column = &columns[*number as usize];
        if column.integer {
            positions.push(position as u32)?;
        }
    }
    Ok(positions)
}

/// Which of the integer columns stands at the position, if one does.
pub fn integer_column(positions: &[u32], wanted: u32) -> Option<usize>
    ensures { result ≡ position (λ p. p == wanted) positions.now }
{
    positions.iter().position(|p| *p == wanted)
}
