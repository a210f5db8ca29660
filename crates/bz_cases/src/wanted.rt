//! What the tables say of answers.

use crate::{Misfit, read_split};
use bz_cut::Cut;
use bz_model::Split;
use bz_tableau::WideAt;
use std::alloc::Global;
use std::test::Fail;

/// The split of a short text by another.
pub(crate) fn split_of(alloc: Global, model: &[u8], part: &[u8]) -> Result<Split, Fail> {
    if model.len() > 2000 || part.len() > 2000 {
        return Err(Fail::from("a text is too long"));
    }
    match read_split(alloc, model, part) {
        Some(split) => Ok(split),
        None => Err(Fail::from("there is no split")),
    }
}

/// Why a test has no task.
pub(crate) fn unfit(_misfit: Misfit) -> Fail {
    Fail::from("the task doesn't fit")
}

/// The numbers of a cut.
#[derive(Clone, Copy)]
pub(crate) struct CutNumbers {
    pub(crate) alpha: &'static [(u32, i128)],
    pub(crate) p0: i128,
    pub(crate) beta: i128,
    pub(crate) gcd: i128,
    pub(crate) mu: &'static [(u32, i128)],
}

/// Whether the cut is the block's with these numbers.
pub(crate) fn is_cut(cut: &Cut, block: u32, wanted: &CutNumbers) -> bool {
    cut.block == block
        && cut.alpha.as_slice() == wanted.alpha
        && cut.p0 == wanted.p0
        && cut.beta == wanted.beta
        && cut.gcd == wanted.gcd
        && cut.mu.as_slice() == wanted.mu
}

/// A wide place.
#[derive(Clone, Copy)]
pub(crate) enum Place {
    Build {
        row: u32,
    },
    Pivot {
        row: u32,
        pivot_row: u32,
        column: u32,
    },
    Den {
        place: u32,
    },
    Fold {
        list: u32,
        at: u32,
    },
}

/// Whether the place is this one.
pub(crate) fn is_at(found: &WideAt, wanted: Place) -> bool {
    match (found, wanted) {
        (WideAt::Build { row }, Place::Build { row: wanted }) => *row == wanted,
        (
            WideAt::Pivot {
                row,
                pivot_row,
                column,
                ..
            },
            Place::Pivot {
                row: wanted,
                pivot_row: pivot,
                column: enters,
            },
        ) => *row == wanted && *pivot_row == pivot && *column == enters,
        (WideAt::Den { place, .. }, Place::Den { place: wanted }) => *place == wanted,
        (
            WideAt::Fold { list, at, .. },
            Place::Fold {
                list: wanted,
                at: there,
            },
        ) => *list == wanted && *at == there,
        _ => false,
    }
}
