//! Splits: a model with a strict partition of its columns, and the inequalities of each part.
ghost use Rattle.std.specs.Prelude.{ℕ, ◌≡◌, ◌<◌, ◌≤◌, [], IfErr, IfOk, length, slice_index_or};
ghost use Rattle.std.specs.List.{AllByRecursion};
ghost use Rattle.bz_model.specs.Entries.{IsEntriesAt, width_at};
ghost use Rattle.bz_model.specs.Parting.{blocks_of, columns_of, homes_of, inequalities_of};
ghost use Rattle.bz_model.specs.Rows.{terms_at};
ghost use Rattle.bz_model.specs.Splits.{FitsPart, IsSplit};
ghost use Rattle.bz_model.specs.Strict.{HasItsColumns, IsPartition, IsStrict};

use crate::entries::{Terms, chosen_rows};
use crate::kept::{Kept, keep};
use crate::records;
use crate::records::Ineq;
use bz_num::{Items, SparseRow};
use std::alloc::Global;
use std::marker;

/// A model with a partition that it may be solved by. Contracts see these two.
#[derive(Drop)]
pub struct Split {
    model: records::Model,
    part: Items<u32>,
    kept: Kept,
}

impl marker::Model for Split {
    ghost use Rattle.bz_model.specs.Splits.{Decomposition, IsKept, IsSplit};

    ghost Value = { Decomposition };

    ghost view = { λ s. record { model = s.model; part = s.part } };

    ghost invariant = { λ s. IsSplit (record { model = s.model; part = s.part }) × IsKept s.model s.part s.kept };
}

/// A model and a partition, handed back for want of memory.
#[derive(Drop)]
pub struct Unsplit0 {
    pub model: records::Model,
    pub part: Items<u32>,
}

impl Split {
    /// The split of the model by the partition. It takes memory; for want of memory both come back.
    pub fn new(alloc: Global, model: records::Model, part: Items<u32>) -> Result<Split, Unsplit0>
        requires indexes { HasItsColumns model }
        requires partition { IsPartition model part }
        requires strict { IsStrict model part }
        ensures split { IfOk result (λ split. split ≡ record { model = model; part = part }) }
        ensures unchanged { IfErr result (λ unsplit. (unsplit.model ≡ model) × (unsplit.part ≡ part)) }
    {
        match keep(alloc, &model, part.as_slice()) {
            Ok(kept) => Ok(Split { model, part, kept }),
            Err(_) => Err(Unsplit0 { model, part }),
        }
    }

    /// The model. It takes no memory.
    pub fn model(&self) -> &records::Model
        ensures value { result.now ≡ self.now.model }
        ensures split { IsSplit self.now }
    {
        &self.model
    }

    /// The number of blocks. It takes no memory.
    pub fn blocks(&self) -> u32
        ensures value { result ≡ blocks_of self.now.part }
        ensures split { IsSplit self.now }
    {
        self.kept.blocks
    }

    /// The part that each row belongs to, in file order: the block of its columns, or the master where it has none in a
    /// block. It takes no memory.
    pub fn homes(&self) -> &[u32]
        ensures value { result.now ≡ homes_of self.now.part self.now.model.rows }
        ensures split { IsSplit self.now }
    {
        self.kept.homes.as_slice()
    }

    /// The columns of a part, in file order. A position of the part is a place in this list. It takes no memory.
    pub fn columns_of(&self, part: u32) -> &[u32]
        requires { part ≤ blocks_of self.now.part }
        ensures value { result.now ≡ columns_of self.now.part part }
        ensures split { IsSplit self.now }
    {
        self.kept.columns[part as usize].as_slice()
    }

    /// The inequalities of a part: its rows' sides and its columns' bounds in `<=` form. It takes no memory.
    pub fn inequalities(&self, part: u32) -> &[Ineq]
        requires { part ≤ blocks_of self.now.part }
        ensures value { result.now ≡ inequalities_of self.now.model self.now.part part }
        ensures split { IsSplit self.now }
        ensures fits { AllByRecursion (FitsPart self.now.part part) result.now }
    {
        self.kept.inequalities[part as usize].as_slice()
    }
    /// What the inequalities of a part have at each position of the part or of the master, by their places in the
    /// part's list. It takes no memory.
    pub fn entries(&self, part: u32, which: Terms) -> &[SparseRow]
        requires { part ≤ blocks_of self.now.part }
        ensures width { length result.now ≡ width_at which self.now.part part }
        ensures each { (i : ℕ) → IsEntriesAt (terms_at which (inequalities_of self.now.model self.now.part part)) i
            (slice_index_or result.now i []) }
    {
        chosen_rows(&self.kept.entries.as_slice()[part as usize], which)
    }

    /// What the inequalities of a part have at one position. It takes no memory.
    pub fn entries_at(&self, part: u32, which: Terms, position: u32) -> &SparseRow
        requires part { part ≤ blocks_of self.now.part }
        requires position { position < width_at which self.now.part part }
        ensures { IsEntriesAt (terms_at which (inequalities_of self.now.model self.now.part part)) position result.now }
    {
        &self.entries(part, which)[position as usize]
    }
}
