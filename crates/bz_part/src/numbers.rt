//! The numbers that lines give to columns, by name.
ghost use Rattle.std.specs.Prelude.{◌≡◌, [], ◌∷◌, ◌++◌, IfOk, None, bytes_eq};
ghost use Rattle.std.specs.Map.{lookup};

use indexmap::IndexMap;
use std::alloc::{AllocError, Global};
use std::marker::Model;

/// The number of each named column, in the order of the lines. Contracts see the list of names and numbers.
#[derive(Drop)]
pub(crate) struct ColumnNumbers<'a> {
    table: IndexMap<&'a [u8], u32>,
}

impl<'a> Model for ColumnNumbers<'a> {
    ghost use Rattle.std.specs.Prelude.{List, ℕ, map};

    ghost Value = { List (List ℕ × ℕ) };

    ghost view = { λ n. map (λ e. (e.0.now, e.1)) n.table.entries };
}

impl<'a> ColumnNumbers<'a> {
    /// No numbers.
    pub(crate) fn new(alloc: Global) -> ColumnNumbers<'a>
        ensures { result ≡ [] }
    {
        ColumnNumbers {
            table: IndexMap::new(alloc),
        }
    }

    /// The number of a column, where it has one.
    pub(crate) fn find(&self, name: &[u8]) -> Option<u32>
        ensures { result ≡ lookup (bytes_eq name.now) self.now }
    {
        self.table.get(name).copied()
    }

    /// Adds the number of a column that has none.
    pub(crate) fn add(&mut self, name: &'a [u8], number: u32) -> Result<(), AllocError>
        requires { lookup (bytes_eq name.now) self.old ≡ None }
        ensures { IfOk result (λ _. self.new ≡ self.old ++ (name.now, number) ∷ []) }
    {
        self.table.insert(name, number)?;
        Ok(())
    }
}
