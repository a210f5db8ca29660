//! Items by their place.
ghost use Rattle.std.specs.Prelude.{ℕ, ◌≡◌, ◌++◌, ◌∷◌, [], IfOk, map};
ghost use Rattle.bz_mps.specs.ByPlace.{AddsItem, AreByPlace};

use bz_facts::{BoundLine, Entry, Given};
use std::alloc::{AllocError, Global};

/// What stands at a place, counted from 0.
pub(crate) trait Placed: Copy + Drop {
    ghost place: { Self → ℕ };

    /// Its place.
    fn place(&self) -> usize
        ensures { result ≡ place self.now };
}

/// An entry stands at its row.
impl Placed for Entry {
    ghost place = { λ e. e.row };

    fn place(&self) -> usize {
        self.row as usize
    }
}

/// A right side or a range stands at its row.
impl Placed for Given {
    ghost place = { λ g. g.row };

    fn place(&self) -> usize {
        self.row as usize
    }
}

/// A bound line stands at its column.
impl Placed for BoundLine {
    ghost place = { λ b. b.column };

    fn place(&self) -> usize {
        self.column as usize
    }
}

/// Adds an item at the end.
pub(crate) fn push_item<T: Drop>(items: &mut Vec<T>, item: T) -> Result<(), AllocError>
    ensures { IfOk result (λ _. items.new.items ≡ items.old.items ++ item ∷ []) }
{
    items.push(item)?;
    Ok(())
}

/// Adds an item to those of its place, where that is one of these.
fn add_item<T: Placed>(lists: &mut Vec<Vec<T>>, item: T) -> Result<(), AllocError>
    ensures { IfOk result (λ _. AddsItem T.place (map (λ v. v.items) lists.old.items) item (map (λ v. v.items) lists.new.items)) }
{
    match lists.get_mut(item.place()) {
        Some(items) => push_item(items, item),
        None => Ok(()),
    }
}

/// So many empty lists.
fn empty_lists<T: Placed>(alloc: Global, count: usize) -> Result<Vec<Vec<T>>, AllocError>
    ensures { IfOk result (λ lists. AreByPlace T.place count [] (map (λ v. v.items) lists.items)) }
{
    let mut lists = Vec::with_capacity(alloc, count)?;
    for _place in 0..count {
        lists.push(Vec::new(alloc))?;
    }
    Ok(lists)
}

/// The items at each place below the count, in order.
pub(crate) fn by_place<T: Placed>(
    alloc: Global,
    count: usize,
    items: &[T],
) -> Result<Vec<Vec<T>>, AllocError>
    ensures { IfOk result (λ lists. AreByPlace T.place count items.now (map (λ v. v.items) lists.items)) }
{
    let mut lists = empty_lists(alloc, count)?;
    for item in items {
        add_item(&mut lists, *item)?;
    }
    Ok(lists)
}
