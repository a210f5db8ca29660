//! The split of a model by a partition.
ghost use Rattle.std.specs.Prelude.{◌≡◌, ◌⊎◌, IfErr, IfOk, MatchOption};
ghost use Rattle.bz_model.specs.Strict.{HasItsColumns, IsPartition, IsStrict};
ghost use Rattle.bz_split.specs.SplitFaults.{IsSplitFault};
ghost use Rattle.bz_split.specs.declared.faults.SplitFault.TheVariants.{OutOfMemory};

use crate::columns::first_column_fault;
use crate::faults::SplitFault;
use crate::rows::first_joined_row;
use crate::sizes::first_too_large;
use crate::unsplit::Unsplit;
use bz_model::Model;
use bz_num::Items;
use std::alloc::Global;

/// Why the model may not be solved by the partition.
fn find_fault(model: &Model, part: &[u32]) -> Option<SplitFault>
    requires indexes { HasItsColumns model.now }
    requires partition { IsPartition model.now part.now }
    ensures { MatchOption result (IsStrict model.now part.now) (IsSplitFault model.now part.now) }
{
    if let Some(fault) = first_joined_row(model, part) {
        return Some(fault);
    }
    if let Some(fault) = first_column_fault(model, part) {
        return Some(fault);
    }
    first_too_large(model, part)
}

/// The split of the model by the partition, where it is strict: no row joins two blocks, an integer column is in the
/// master, a column of the master has two bounds, and no part has more than 1,024 inequalities. Else the first fault,
/// and both arguments as they were.
pub fn split(alloc: Global, model: Model, part: Items<u32>) -> Result<bz_model::Split, Unsplit>
    requires indexes { HasItsColumns model }
    requires partition { IsPartition model part }
    ensures ok { IfOk result (λ s. s ≡ record { model = model; part = part }) }
    ensures strict { IfOk result (λ _. IsStrict model part) }
    ensures fault { IfErr result (λ u. (u.fault ≡ OutOfMemory) ⊎ IsSplitFault model part u.fault) }
    ensures memory { IfErr result (λ u. u.fault ≡ OutOfMemory → IsStrict model part) }
    ensures kept { IfErr result (λ u. (u.model ≡ model) × (u.part ≡ part)) }
{
    if let Some(fault) = find_fault(&model, part.as_slice()) {
        return Err(Unsplit { model, part, fault });
    }
    match bz_model::Split::new(alloc, model, part) {
        Ok(split) => Ok(split),
        Err(back) => Err(Unsplit {
            model: back.model,
            part: back.part,
            fault: SplitFault::OutOfMemory,
        }),
    }
}
