//! What gave no split.
ghost use Rattle.std.specs.Prelude.{◌≡◌, ◌<◌, length};
ghost use Rattle.std.specs.Option.{ForSome};
ghost use Rattle.bz_split.specs.Places.{column_of, row_of};

use crate::faults::SplitFault;
use bz_model::Model;
use bz_num::Items;

/// A model and a partition that gave no split, handed back as they were, and why. The row or the column that the fault
/// names is one of the model's, and the partition has a number for each column.
#[derive(Drop)]
pub struct Unsplit {
    /// The model that was given.
    pub model: Model,
    /// The part of each column that was given.
    pub part: Items<u32>,
    /// Why there is no split.
    pub fault: SplitFault,
    pub ghost numbers: { length part ≡ length model.columns },
    pub ghost row: { ForSome (row_of fault) (λ i. i < length model.rows) },
    pub ghost column: { ForSome (column_of fault) (λ j. j < length model.columns) },
}
