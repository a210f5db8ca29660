//! A search that one worker does alone.
ghost use Rattle.std.specs.Prelude.{◌≡◌, ◌≢◌, ◌<◌, ◌≤◌, [], ◌∷◌, IfOk, length};
ghost use Rattle.bz_history.specs.declared.state.Outcome.TheVariants as outcome;
ghost use Rattle.bz_history.specs.Budgets.{greatest_budget};
ghost use Rattle.bz_history.specs.Histories.{IsRootRegion};
ghost use Rattle.bz_history.specs.Outcomes.{outcome_of};
ghost use Rattle.bz_core.specs.Searches.{now};
ghost use Rattle.bz_crew.specs.Alone.{AreOfWorkerZero};

use crate::turning::do_all;
use bz_core::Search;
use bz_model::Split;
use bz_num::{Items, OutOfMemory};
use std::alloc::Global;

/// A search that has come to its end, and who did it.
#[derive(Drop)]
pub struct Ended<'a> {
    /// The search, which is done.
    pub search: Search<'a>,
    /// How many entries each worker appended, by the worker's number.
    pub shares: Items<u64>,
}

/// Searches until the search is done. The caller does all tasks as worker 0, waits for nobody and returns. The budget
/// is from 1 to 4,000 units. It takes memory.
pub fn run_one<'a>(alloc: Global, split: &'a Split, budget: u32) -> Result<Ended<'a>, OutOfMemory>
    requires positive { 0 < budget }
    requires at_most { budget ≤ greatest_budget }
    ensures split { IfOk result (λ ended. ended.search.split ≡ split.now) }
    ensures budget { IfOk result (λ ended. ended.search.budget ≡ budget) }
    ensures root { IfOk result (λ ended. IsRootRegion split.now.model ended.search.root) }
    ensures over { IfOk result (λ ended. outcome_of (now ended.search) ≢ outcome.Running) }
    ensures stamps { IfOk result (λ ended. AreOfWorkerZero ended.search.history) }
    ensures shares { IfOk result (λ ended. ended.shares ≡ length ended.search.history ∷ []) }
{
    let mut search = Search::begin(alloc, split, budget)?;
    do_all(alloc, &mut search)?;
    let mut shares = Vec::with_capacity(alloc, 1)?;
    shares.push_reserved(search.history().len() as u64);
    Ok(Ended {
        search,
        shares: Items::from_vec(shares),
    })
}
