//! A search, how it begins, and what can be read of it.
ghost use Rattle.std.specs.Prelude.{◌≡◌, ◌<◌, ◌≤◌, [], ◌∷◌, IfOk, false, true};
ghost use Rattle.bz_model.specs.Decomposed.{IsDecomposed};
ghost use Rattle.bz_history.specs.Histories.{IsRootRegion, count_of};
ghost use Rattle.bz_history.specs.Outcomes.{outcome_of};
ghost use Rattle.bz_history.specs.Budgets.{greatest_budget};
ghost use Rattle.bz_core.specs.Searches.{IsSearch, now};

use crate::handouts::Marks;
use crate::outcomes::outcome_of;
use bz_event::Entry;
use bz_history::{Outcome, Region};
use bz_model::Split;
use bz_num::{Items, OutOfMemory};
use bz_state::Progress;
use bz_tree::{NodeBox, root_box};
use std::alloc::Global;
use std::marker::Model;

/// A search over a split: its whole history, and which tasks are handed out. Contracts see these with the budget and the
/// region that it began with; what it knows is what the history makes of that.
#[derive(Drop)]
pub struct Search<'a> {
    pub(crate) split: &'a Split,
    pub(crate) budget: u32,
    pub(crate) root: Region,
    pub(crate) progress: Progress,
    pub(crate) history: Vec<Entry>,
    pub(crate) marks: Marks,
    pub(crate) quit: bool,
}

impl<'a> Model for Search<'a> {
    ghost use Rattle.std.specs.Coded.{codes};
    ghost use Rattle.bz_event.specs.contracts.events.Entry as entry;
    ghost use Rattle.bz_core.specs.Searches.{IsSearch, Seen};

    ghost Value = { Seen };

    ghost coded = { Prim.hlevel (codes, entry.the_row.coded) };

    ghost view = { λ s. record {
      split = s.split.now;
      budget = s.budget;
      root = s.root;
      history = s.history.items;
      marks = s.marks;
      quit = s.quit;
    } };

    ghost invariant = { λ s. IsSearch s.split.now s.budget s.root s.history.items s.progress.state s.marks };
}

/// The region of the whole model.
fn root_region(alloc: Global, split: &Split) -> Result<Region, OutOfMemory>
    ensures region { IfOk result (IsRootRegion split.now.model) }
    ensures decomposed { IsDecomposed split.now.model split.now.part }
{
    // The call tells what a split keeps in its type.
    let _model = split.model();
    let NodeBox { lower, upper } = root_box(alloc, split)?;
    Ok(Region { lower, upper })
}

/// The same region.
fn copy_region(alloc: Global, region: &Region) -> Result<Region, OutOfMemory>
    ensures { IfOk result (λ copy. copy ≡ region.now) }
{
    Ok(Region {
        lower: region.lower.copy(alloc)?,
        upper: region.upper.copy(alloc)?,
    })
}

impl<'a> Search<'a> {
    /// A search that begins: with no entry, and the box of the whole model as its only node. Its budget is from 1 to 4,000
    /// units; a unit is a closed node or an appended cut. It takes memory.
    pub fn begin(alloc: Global, split: &'a Split, budget: u32) -> Result<Search<'a>, OutOfMemory>
        requires positive { 0 < budget }
        requires at_most { budget ≤ greatest_budget }
        ensures split { IfOk result (λ search. search.split ≡ split.now) }
        ensures budget { IfOk result (λ search. search.budget ≡ budget) }
        ensures root { IfOk result (λ search. IsRootRegion split.now.model search.root) }
        ensures history { IfOk result (λ search. search.history ≡ []) }
        ensures marks { IfOk result (λ search. search.marks ≡ record { floor = false; nodes = false ∷ []; blocks = [] }) }
        ensures quit { IfOk result (λ search. search.quit ≡ false) }
    {
        let root = root_region(alloc, split)?;
        let progress = Progress::opening(alloc, copy_region(alloc, &root)?)?;
        Ok(Search {
            split,
            budget,
            root,
            progress,
            history: Vec::new(alloc),
            marks: Marks::new(alloc)?,
            quit: false,
        })
    }

    /// Calls the search off: no further task is handed out, and nothing else changes. It takes no memory.
    pub fn quit(&mut self)
        ensures { self.new ≡ record self.old { quit = true } }
    {
        self.quit = true;
    }

    /// What the search has come to. It takes no memory.
    pub fn outcome(&self) -> Outcome
        ensures { result ≡ outcome_of (now self.now) }
    {
        outcome_of(&self.progress)
    }

    /// How many units are spent: the closed nodes and the appended cuts.
    pub fn units(&self) -> u32
        ensures { result ≡ (now self.now).units }
    {
        self.progress.units()
    }

    /// After how many units the search stops.
    pub fn budget(&self) -> u32
        ensures { result ≡ self.now.budget }
    {
        self.budget
    }

    /// All entries, in their order. What a search knows is what they make of the region that it began with, and the laws
    /// of legal histories hold of it.
    pub fn history(&self) -> &[Entry]
        ensures entries { result.now ≡ self.now.history }
        ensures kept { IsSearch self.now.split self.now.budget self.now.root self.now.history (now self.now) self.now.marks }
    {
        self.history.as_slice()
    }

    /// The split.
    pub fn split(&self) -> &'a Split
        ensures { result.now ≡ self.now.split }
    {
        self.split
    }
}
