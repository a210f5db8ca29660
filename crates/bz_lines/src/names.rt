//! Names, each once, in the order in which they first come.
ghost use Rattle.std.specs.Prelude.{◌≡◌, true, false, [], IfOk, IfSome, OnErr, IfNone, not, length};
ghost use Rattle.bz_lines.specs.FieldLists.{field};
ghost use Rattle.bz_lines.specs.NameLists.{is_among, place, with_name};

use crate::hashed_names::HashedNames;
use crate::ordered_names::OrderedNames;
use std::alloc::{AllocError, Global};
use std::marker::Model;

/// How many names are found by their hash: as many as a model keeps, 2,048 rows and the objective. A text may have many
/// more rows of kind N.
const HASHED: usize = 2049;

/// What became of an added name.
#[derive(Clone, Copy, Debug)]
pub struct Added {
    /// Its place among the names.
    pub place: usize,
    /// Whether it is new.
    pub new: bool,
}

/// Names by their hash while they are few, and then by their order: so a look-up compares no more than `HASHED` names,
/// whatever hashes they have.
#[derive(Drop)]
enum Table<'a> {
    Hashed(HashedNames<'a>),
    Ordered(OrderedNames<'a>),
}

/// Names, each once, in the order in which they first come. Contracts see the list of their bytes.
#[derive(Drop)]
pub struct Names<'a> {
    alloc: Global,
    table: Table<'a>,
}

impl<'a> Model for Names<'a> {
    ghost use Rattle.std.specs.Prelude.{List, ℕ};
    ghost use Rattle.bz_lines.specs.NameTables.{names_in};

    ghost Value = { List (List ℕ) };

    ghost view = { λ n. names_in n.table };
}

impl<'a> Names<'a> {
    /// No names.
    pub fn new(alloc: Global) -> Names<'a>
        ensures { result ≡ [] }
    {
        Names {
            alloc,
            table: Table::Hashed(HashedNames::new(alloc)),
        }
    }

    /// The place of a name, if it is one of these.
    pub fn find(&self, name: &[u8]) -> Option<usize>
        ensures place { IfSome result (λ i. i ≡ place self.now name.now) }
        ensures there { IfSome result (λ i. is_among self.now name.now ≡ true) }
        ensures absent { IfNone result (is_among self.now name.now ≡ false) }
    {
        match &self.table {
            Table::Hashed(names) => names.find(name),
            Table::Ordered(names) => names.find(name),
        }
    }

    /// Adds a name at the end, where it is new.
    pub fn add(&mut self, name: &'a [u8]) -> Result<Added, AllocError>
        ensures place { IfOk result (λ r. r.place ≡ place self.old name.now) }
        ensures new { IfOk result (λ r. r.new ≡ not (is_among self.old name.now)) }
        ensures names { IfOk result (λ r. self.new ≡ with_name self.old name.now) }
        ensures kept { OnErr result (self.new ≡ self.old) }
    {
        match &mut self.table {
            Table::Ordered(names) => names.add(name),
            Table::Hashed(names) if names.len() < HASHED => names.add(name),
            Table::Hashed(names) => {
                let mut ordered = OrderedNames::from_hashed(self.alloc, names)?;
                let added = ordered.add(name)?;
                self.table = Table::Ordered(ordered);
                Ok(added)
            }
        }
    }

    /// How many names there are.
    pub fn len(&self) -> usize
        ensures { result ≡ length self.now }
    {
        match &self.table {
            Table::Hashed(names) => names.len(),
            Table::Ordered(names) => names.len(),
        }
    }

    /// The name at a place, and no byte where there is none.
    pub fn at(&self, place: usize) -> &[u8]
        ensures { result.now ≡ field place self.now }
    {
        match &self.table {
            Table::Hashed(names) => names.at(place),
            Table::Ordered(names) => names.at(place),
        }
    }
}
