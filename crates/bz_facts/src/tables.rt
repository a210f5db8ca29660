//! The tables of the lines passed so far. Each holds the facts of one section.
ghost use Rattle.std.specs.Prelude.{◌≡◌, ◌<◌, ◌^◌, ◌++◌, ◌∷◌, [], Some, None, IfOk, filter, length, not, option_to_list, if◌then◌else◌};
ghost use Rattle.std.specs.List.{list_any};
ghost use Rattle.bz_facts.specs.LineFacts.{is_own};
ghost use Rattle.bz_facts.specs.LineTests.{is_counted, is_free, is_same_entry, is_same_row};
ghost use Rattle.bz_facts.specs.TableNotes.{first_noted, is_noted};

use crate::records::{BoundLine, Entry, Given, Heading, RowType};
use bz_lines::Names;
use bz_num::Items;
use indexmap::IndexSet;
use std::alloc::{AllocError, Global};
use std::marker::Model;

/// Entries of COLUMNS, no two of one column and one row.
#[derive(Drop)]
pub(crate) struct Entries {
    list: Vec<Entry>,
    places: IndexSet<(u32, u32)>,
}

impl Model for Entries {
    ghost use Rattle.std.specs.Prelude.{◌≡◌, List, map};
    ghost use Rattle.bz_facts.specs.declared.records.Entry.{Entry};
    ghost use Rattle.bz_facts.specs.TableNotes.{entry_place};

    ghost Value = { List Entry };

    ghost view = { λ e. e.list.items };

    ghost invariant = { λ e. e.places.keys ≡ map entry_place e.list.items };
}

impl Entries {
    /// No entries.
    pub(crate) fn new(alloc: Global) -> Entries
        ensures { result ≡ [] }
    {
        Entries {
            list: Vec::new(alloc),
            places: IndexSet::new(alloc),
        }
    }

    /// How many there are.
    pub(crate) fn len(&self) -> usize
        ensures { result ≡ length self.now }
    {
        self.list.len()
    }

    /// Adds an entry at the end, where the column has none in the row, and says whether it did.
    pub(crate) fn add(&mut self, entry: Entry) -> Result<bool, AllocError>
        ensures new { IfOk result (λ new. new ≡ not (list_any (is_same_entry entry) self.old)) }
        ensures entries { IfOk result (λ new. self.new ≡ (if new then self.old ++ entry ∷ [] else self.old)) }
    {
        self.list.reserve(1)?;
        if self.places.insert((entry.column, entry.row))? {
            self.list.push_reserved(entry);
            Ok(true)
        } else {
            Ok(false)
        }
    }

    /// The entries, in order. It takes no memory.
    pub(crate) fn into_items(self) -> Items<Entry>
        ensures { result ≡ self }
    {
        let Entries { list, places: _ } = self;
        Items::from_vec(list)
    }
}

/// Right sides or ranges, no two of one row.
#[derive(Drop)]
pub(crate) struct Givens {
    list: Vec<Given>,
    rows: IndexSet<u32>,
}

impl Model for Givens {
    ghost use Rattle.std.specs.Prelude.{◌≡◌, List, map};
    ghost use Rattle.bz_facts.specs.declared.records.Given.{Given};
    ghost use Rattle.bz_facts.specs.TableNotes.{given_place};

    ghost Value = { List Given };

    ghost view = { λ g. g.list.items };

    ghost invariant = { λ g. g.rows.keys ≡ map given_place g.list.items };
}

impl Givens {
    /// None.
    pub(crate) fn new(alloc: Global) -> Givens
        ensures { result ≡ [] }
    {
        Givens {
            list: Vec::new(alloc),
            rows: IndexSet::new(alloc),
        }
    }

    /// Adds one at the end, where the row has none, and says whether it did.
    pub(crate) fn add(&mut self, given: Given) -> Result<bool, AllocError>
        ensures new { IfOk result (λ new. new ≡ not (list_any (is_same_row given) self.old)) }
        ensures givens { IfOk result (λ new. self.new ≡ (if new then self.old ++ given ∷ [] else self.old)) }
    {
        self.list.reserve(1)?;
        if self.rows.insert(given.row)? {
            self.list.push_reserved(given);
            Ok(true)
        } else {
            Ok(false)
        }
    }

    /// All of them, in order. It takes no memory.
    pub(crate) fn into_items(self) -> Items<Given>
        ensures { result ≡ self }
    {
        let Givens { list, rows: _ } = self;
        Items::from_vec(list)
    }
}

/// What rows say, how many of them count for the limit, and whether there is one of kind N.
#[derive(Drop)]
pub(crate) struct RowTypes {
    list: Vec<RowType>,
    counted: usize,
    objective: bool,
}

impl Model for RowTypes {
    ghost use Rattle.std.specs.Prelude.{List};
    ghost use Rattle.bz_facts.specs.declared.records.RowType.{RowType};

    ghost Value = { List RowType };

    ghost use Rattle.bz_facts.specs.RowCounts.{AreCounted};

    ghost view = { λ r. r.list.items };

    ghost invariant = { λ r. AreCounted r.list.items r.counted r.objective };
}

impl RowTypes {
    /// No rows.
    pub(crate) fn new(alloc: Global) -> RowTypes
        ensures { result ≡ [] }
    {
        RowTypes {
            list: Vec::new(alloc),
            counted: 0,
            objective: false,
        }
    }

    /// How many rows count for the limit: all but those of kind N.
    pub(crate) fn counted(&self) -> usize
        ensures { result ≡ length (filter is_counted self.now) }
    {
        self.counted
    }

    /// Whether there is a row of kind N.
    pub(crate) fn has_objective(&self) -> bool
        ensures { result ≡ list_any is_free self.now }
    {
        self.objective
    }

    /// Adds a row at the end.
    pub(crate) fn push(&mut self, row: RowType) -> Result<(), AllocError>
        ensures { IfOk result (λ _. self.new ≡ self.old ++ row ∷ []) }
    {
        self.list.reserve(1)?;
        match row {
            RowType::Free => self.objective = true,
            RowType::AtMost | RowType::AtLeast | RowType::Equal => self.counted += 1,
        }
        self.list.push_reserved(row);
        Ok(())
    }

    /// The rows, in order. It takes no memory.
    pub(crate) fn into_items(self) -> Items<RowType>
        ensures { result ≡ self }
    {
        let RowTypes {
            list,
            counted: _,
            objective: _,
        } = self;
        Items::from_vec(list)
    }
}

/// A name that is noted, or none.
#[derive(Drop)]
pub(crate) struct Noted<'a> {
    name: Option<&'a [u8]>,
}

impl<'a> Model for Noted<'a> {
    ghost use Rattle.std.specs.Prelude.{ℕ, List, Option};
    ghost use Rattle.std.specs.Option.{option_map};

    ghost Value = { Option (List ℕ) };

    ghost view = { λ n. option_map (λ k. k.now) n.name };
}

impl<'a> Noted<'a> {
    /// No name.
    pub(crate) fn none() -> Noted<'a>
        ensures { result ≡ None }
    {
        Noted { name: None }
    }

    /// This name.
    pub(crate) fn some(name: &'a [u8]) -> Noted<'a>
        ensures { result ≡ Some name.now }
    {
        Noted { name: Some(name) }
    }

    /// Whether it is this name.
    pub(crate) fn is(&self, name: &[u8]) -> bool
        ensures { result ≡ is_noted self.now name.now }
    {
        match self.name {
            Some(own) => own == name,
            None => false,
        }
    }

    /// Whether a set is the section's own: that of its first line, which is noted, or of any where none is.
    pub(crate) fn is_own(&self, set: &[u8]) -> bool
        ensures { result ≡ is_own (option_to_list self.now) set.now }
    {
        match self.name {
            Some(own) => set == own,
            None => true,
        }
    }

    /// Notes a name, where none is.
    pub(crate) fn note_first(&mut self, name: &'a [u8])
        ensures { self.new ≡ first_noted self.old name.now }
    {
        if self.name.is_none() {
            self.name = Some(name);
        }
    }
}

/// The sections that have begun. COLUMNS begins once, and so on: these are flags, not a list.
#[derive(Clone, Copy, Debug)]
pub(crate) struct Begun {
    /// Any section.
    pub any: bool,
    /// OBJSENSE.
    pub sense: bool,
    /// ROWS.
    pub rows: bool,
    /// COLUMNS.
    pub columns: bool,
    /// RHS.
    pub rhs: bool,
    /// RANGES.
    pub ranges: bool,
    /// BOUNDS.
    pub bounds: bool,
}

/// What the headers say.
#[derive(Clone, Copy, Debug)]
pub(crate) struct Headers {
    /// The section of the last one.
    pub section: Option<Heading>,
    /// The sections that have begun.
    pub begun: Begun,
}

/// What OBJSENSE says.
#[derive(Clone, Copy, Debug)]
pub(crate) struct Sense {
    /// Whether a greater value is better.
    pub maximise: bool,
    /// Whether its word was there.
    pub told: bool,
}

/// The rows.
#[derive(Drop)]
pub(crate) struct Rows<'a> {
    /// Their names.
    pub names: Names<'a>,
    /// What they say, in the same order.
    pub types: RowTypes,
}

/// The columns and their entries.
#[derive(Drop)]
pub(crate) struct Columns<'a> {
    /// The names of the columns in the order in which they first come.
    pub names: Names<'a>,
    /// Whether each is an integer, in the same order.
    pub integers: Vec<bool>,
    /// The entries.
    pub entries: Entries,
    /// Whether the last marker opens.
    pub marked: bool,
    /// The column of the last line; none where that was a marker or the header.
    pub current: Noted<'a>,
}

/// The right sides or the ranges.
#[derive(Drop)]
pub(crate) struct GivenTable<'a> {
    /// The set of the section's first line.
    pub set: Noted<'a>,
    /// What the lines of that set give.
    pub givens: Givens,
}

/// The bounds.
#[derive(Drop)]
pub(crate) struct BoundTable<'a> {
    /// The set of the section's first line.
    pub set: Noted<'a>,
    /// The lines of that set.
    pub lines: Vec<BoundLine>,
}

/// All tables.
#[derive(Drop)]
pub(crate) struct Tables<'a> {
    /// The headers.
    pub headers: Headers,
    /// OBJSENSE.
    pub sense: Sense,
    /// ROWS.
    pub rows: Rows<'a>,
    /// COLUMNS.
    pub columns: Columns<'a>,
    /// RHS.
    pub right_sides: GivenTable<'a>,
    /// RANGES.
    pub ranges: GivenTable<'a>,
    /// BOUNDS.
    pub bounds: BoundTable<'a>,
}
