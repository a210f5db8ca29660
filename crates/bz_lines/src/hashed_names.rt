//! Names found by their hash.
ghost use Rattle.std.specs.Prelude.{◌≡◌, true, false, [], IfOk, IfSome, OnErr, IfNone, not, length};
ghost use Rattle.bz_lines.specs.FieldLists.{field};
ghost use Rattle.bz_lines.specs.NameLists.{is_among, place, with_name};

use crate::names::Added;
use indexmap::IndexSet;
use std::alloc::{AllocError, Global};
use std::marker::Model;

/// Names, each once, in the order in which they first come. Contracts see the list of their bytes.
///
/// The seed of the hash is fixed, so a look-up among names of one hash goes over all of them.
#[derive(Drop)]
pub(crate) struct HashedNames<'a> {
    set: IndexSet<&'a [u8]>,
}

impl<'a> Model for HashedNames<'a> {
    ghost use Rattle.std.specs.Prelude.{List, ℕ, map};

    ghost Value = { List (List ℕ) };

    ghost view = { λ n. map (λ k. k.now) n.set.keys };
}

impl<'a> HashedNames<'a> {
    /// No names.
    pub(crate) fn new(alloc: Global) -> HashedNames<'a>
        ensures { result ≡ [] }
    {
        HashedNames {
            set: IndexSet::new(alloc),
        }
    }

    /// The place of a name, if it is one of these.
    pub(crate) fn find(&self, name: &[u8]) -> Option<usize>
        ensures place { IfSome result (λ i. i ≡ place self.now name.now) }
        ensures there { IfSome result (λ i. is_among self.now name.now ≡ true) }
        ensures absent { IfNone result (is_among self.now name.now ≡ false) }
    {
        self.set.get_index_of(name)
    }

    /// Adds a name at the end, where it is new.
    pub(crate) fn add(&mut self, name: &'a [u8]) -> Result<Added, AllocError>
        ensures place { IfOk result (λ r. r.place ≡ place self.old name.now) }
        ensures new { IfOk result (λ r. r.new ≡ not (is_among self.old name.now)) }
        ensures names { IfOk result (λ r. self.new ≡ with_name self.old name.now) }
        ensures kept { OnErr result (self.new ≡ self.old) }
    {
        let (place, new) = self.set.insert_full(name)?;
        Ok(Added { place, new })
    }

    /// How many names there are.
    pub(crate) fn len(&self) -> usize
        ensures { result ≡ length self.now }
    {
        self.set.len()
    }

    /// The name at a place, and no byte where there is none.
    pub(crate) fn at(&self, place: usize) -> &'a [u8]
        ensures { result.now ≡ field place self.now }
    {
        match self.set.get_index(place) {
            Some(name) => *name,
            None => b"",
        }
    }
}
