//! Splits that are read from texts.
ghost use Rattle.std.specs.Prelude.{◌-◌, ◌<◌, ◌^◌, IfSome, length};
ghost use Rattle.bz_mps.specs.FactModel.{ModelOf};
ghost use Rattle.bz_part.specs.Partition.{PartOf};

use bz_model::Split;
use bz_mps::read_mps;
use bz_num::Items;
use bz_part::read_part;
use bz_split::split;
use std::alloc::Global;

/// The split of the model of a text by the partition of another, where both are read and it is strict.
pub fn read_split(alloc: Global, model: &[u8], part: &[u8]) -> Option<Split>
    requires model { length model.now < 2 ^ 32 - 1 }
    requires part { length part.now < 2 ^ 32 - 1 }
    ensures model { IfSome result (λ split. ModelOf model.now split.model) }
    ensures part { IfSome result (λ split. PartOf part.now split.model split.part) }
{
    let Ok(model) = read_mps(alloc, model) else {
        return None;
    };
    let Ok(part) = read_part(alloc, part, &model) else {
        return None;
    };
    match split(alloc, model, Items::from_vec(part)) {
        Ok(split) => Some(split),
        Err(_) => None,
    }
}
