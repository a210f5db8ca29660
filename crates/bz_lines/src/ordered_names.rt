//! Names found by their order.
ghost use Rattle.std.specs.Prelude.{◌≡◌, ◌++◌, ◌∷◌, [], IfOk, OnErr, OnOk, not, length};
ghost use Rattle.std.specs.BTreeMap.{IsUnchanged};
ghost use Rattle.bz_lines.specs.FieldLists.{field};
ghost use Rattle.bz_lines.specs.NameLists.{Notes, is_among, place, place_among, with_name};

use crate::hashed_names::HashedNames;
use crate::names::Added;
use std::alloc::{AllocError, Global};
use std::collections::BTreeMap;
use std::marker::Model;

/// Names in the order in which they first come. Contracts see the list of their bytes.
///
/// A look-up compares as many names as the number of them has binary digits, whatever they are.
#[derive(Drop)]
pub(crate) struct OrderedNames<'a> {
    list: Vec<&'a [u8]>,
    places: BTreeMap<&'a [u8], usize>,
}

impl<'a> Model for OrderedNames<'a> {
    ghost use Rattle.std.specs.Prelude.{List, ℕ, map};
    ghost use Rattle.bz_lines.specs.NameLists.{HasPlaces};

    ghost Value = { List (List ℕ) };

    ghost view = { λ n. map (λ k. k.now) n.list.items };

    ghost invariant = { λ n. HasPlaces (map (λ k. k.now) n.list.items) n.places };
}

/// Notes the place of a name after so many others, where it is none of them.
#[tactic(auto, using(crate::proofs::PlaceLemmas::notes_known))]
fn note<'a>(
    places: &mut BTreeMap<&'a [u8], usize>,
    name: &'a [u8],
    place: usize,
) -> Result<(), AllocError>
    ensures ok { OnOk result (Notes name.now place places.old places.new) }
    ensures err { OnErr result (IsUnchanged places.old places.new) }
{
    if places.contains_key(name) {
        return Ok(());
    }
    match places.insert(name, place) {
        Ok(_) => Ok(()),
        Err(_) => Err(AllocError),
    }
}

impl<'a> OrderedNames<'a> {
    /// No names.
    fn new(alloc: Global) -> OrderedNames<'a>
        ensures { result ≡ [] }
    {
        OrderedNames {
            list: Vec::new(alloc),
            places: BTreeMap::new(alloc),
        }
    }

    /// The same names. It takes memory for them.
    pub(crate) fn from_hashed(
        alloc: Global,
        names: &HashedNames<'a>,
    ) -> Result<OrderedNames<'a>, AllocError>
        ensures { IfOk result (λ ordered. ordered ≡ names.now) }
    {
        let mut ordered = OrderedNames::new(alloc);
        for place in 0..names.len() {
            ordered.push(names.at(place))?;
        }
        Ok(ordered)
    }

    /// The place of a name, if it is one of these.
    pub(crate) fn find(&self, name: &[u8]) -> Option<usize>
        ensures { result ≡ place_among self.now name.now }
    {
        self.places.get(name).copied()
    }

    /// Puts a name after the others.
    fn push(&mut self, name: &'a [u8]) -> Result<(), AllocError>
        ensures names { OnOk result (self.new ≡ self.old ++ name.now ∷ []) }
        ensures kept { OnErr result (self.new ≡ self.old) }
    {
        self.list.reserve(1)?;
        note(&mut self.places, name, self.list.len())?;
        self.list.push_reserved(name);
        Ok(())
    }

    /// Adds a name at the end, where it is new.
    #[tactic(auto, using(crate::proofs::PlaceLemmas::place_of_new))]
    pub(crate) fn add(&mut self, name: &'a [u8]) -> Result<Added, AllocError>
        ensures place { IfOk result (λ r. r.place ≡ place self.old name.now) }
        ensures new { IfOk result (λ r. r.new ≡ not (is_among self.old name.now)) }
        ensures names { IfOk result (λ r. self.new ≡ with_name self.old name.now) }
        ensures kept { OnErr result (self.new ≡ self.old) }
    {
        match self.find(name) {
            Some(place) => Ok(Added { place, new: false }),
            None => {
                let place = self.len();
                self.push(name)?;
                Ok(Added { place, new: true })
            }
        }
    }

    /// How many names there are.
    pub(crate) fn len(&self) -> usize
        ensures { result ≡ length self.now }
    {
        self.list.len()
    }

    /// The name at a place, and no byte where there is none.
    pub(crate) fn at(&self, place: usize) -> &'a [u8]
        ensures { result.now ≡ field place self.now }
    {
        match self.list.get(place) {
            Some(name) => *name,
            None => b"",
        }
    }
}
