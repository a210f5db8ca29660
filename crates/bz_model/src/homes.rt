//! The part that each row belongs to.
ghost use Rattle.std.specs.Prelude.{◌≡◌, ◌<◌, IfOk, length};
ghost use Rattle.std.specs.List.{AllByRecursion};
ghost use Rattle.bz_algebra.specs.Sums.{AllBelow};
ghost use Rattle.bz_model.specs.Parting.{home_of, homes_of};

use crate::records::Row;
use bz_num::SparseRow;
use std::alloc::{AllocError, Global};

/// The part that a row of these terms belongs to: the block of its first column in a block, or the master where it has
/// none. It takes no memory.
pub fn home(part: &[u32], terms: &SparseRow) -> u32
    requires { AllBelow (length part.now) terms.now }
    ensures { result ≡ home_of part.now terms.now }
{
    for entry in terms.as_slice() {
        let b = part[entry.0 as usize];
        if b > 0 {
            return b;
        }
    }
    0
}

/// The part that each row belongs to.
pub(crate) fn find_homes(alloc: Global, part: &[u32], rows: &[Row]) -> Result<Vec<u32>, AllocError>
    requires { AllByRecursion (λ row. AllBelow (length part.now) row.terms) rows.now }
    ensures { IfOk result (λ homes. homes.items ≡ homes_of part.now rows.now) }
{
    let mut homes = Vec::with_capacity(alloc, rows.len())?;
    for row in rows {
        homes.push(home(part, &row.terms))?;
    }
    Ok(homes)
}
