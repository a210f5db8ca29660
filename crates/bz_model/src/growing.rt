//! Lists that grow at their ends.
ghost use Rattle.std.specs.Prelude.{◌≡◌, ◌<◌, ◌∷◌, ◌++◌, [], IfOk, length, replicate};
ghost use Rattle.bz_model.specs.PartLists.{Gains};

use std::alloc::{AllocError, Global};
use std::marker::Model;

/// A list that grows at its end. Contracts see it as that list.
#[derive(Drop)]
pub struct Growing<T> {
    items: Vec<T>,
}

impl<T> Model for Growing<T> {
    ghost use Rattle.std.specs.Prelude.{List};

    ghost Value = { List T };

    ghost view = { λ l. l.items.items };
}

impl<T> Growing<T> {
    /// The items, in order. It takes no memory.
    pub fn as_slice(&self) -> &[T]
        ensures { result.now ≡ self.now }
    {
        self.items.as_slice()
    }
}

impl<T: Drop> Growing<T> {
    /// The empty list. It takes no memory.
    pub fn new(alloc: Global) -> Growing<T>
        ensures { result ≡ [] }
    {
        Growing {
            items: Vec::new(alloc),
        }
    }

    /// Adds an item at the end.
    pub fn push(&mut self, item: T) -> Result<(), AllocError>
        ensures { IfOk result (λ _. self.new ≡ self.old ++ item ∷ []) }
    {
        self.items.push(item)?;
        Ok(())
    }
}

/// So many empty lists.
pub fn empty_lists<T: Drop>(alloc: Global, count: usize) -> Result<Vec<Growing<T>>, AllocError>
    ensures { IfOk result (λ lists. lists.items ≡ replicate count []) }
{
    let mut lists = Vec::new(alloc);
    for _ in 0..count {
        lists.push(Growing::new(alloc))?;
    }
    Ok(lists)
}

/// Adds an item at the end of one of the lists.
pub fn push_at<T: Drop>(lists: &mut Vec<Growing<T>>, at: usize, item: T) -> Result<(), AllocError>
    requires { at < length lists.old.items }
    ensures { IfOk result (λ _. Gains lists.old.items lists.new.items at (item ∷ [])) }
{
    lists[at].push(item)
}
