//! Answers of linear programs, and why one has none.
ghost use Rattle.std.specs.Prelude.{pos, ◌<ℤ◌};

use bz_num::{Items, OutOfMemory};
use std::alloc::AllocError;

/// The numbers `num` over one denominator.
#[derive(Drop)]
pub struct Vals {
    pub num: Items<i128>,
    pub den: i128,
    pub ghost den_positive: { pos 0 <ℤ den },
}

/// What a program comes to, with the basis that shows it.
#[derive(Drop)]
pub enum Answer {
    /// `z` is a point of least cost, and `y` are the multipliers that show it.
    Least {
        basis: Items<u32>,
        z: Vals,
        y: Vals,
    },
    /// There is no point: `y` times the rows has no negative term and a negative right side.
    Empty {
        basis: Items<u32>,
        y: Items<i128>,
    },
    /// The cost has no bound: from the point `z` it falls along `d`, which raises `column`.
    Ray {
        basis: Items<u32>,
        column: u32,
        z: Vals,
        d: Items<i128>,
    },
}

/// A number wider than 127 bits, by the place where it would stand.
#[derive(Drop)]
pub enum WideAt {
    /// The right side of a row of a separation program.
    Build {
        row: u32,
    },
    /// The row `row` of `basis` after the pivot at the place `pivot_row` in the column `column`, on the way to `goal`.
    /// The objective row is the one after the program's rows.
    Pivot {
        relaxed: bool,
        basis: Items<u32>,
        goal: Items<u32>,
        row: u32,
        pivot_row: u32,
        column: u32,
    },
    /// A value of the basis over the common denominator, by the place of its column, from 0, among the basic columns
    /// that are not slacks, in rising order.
    Den {
        relaxed: bool,
        basis: Items<u32>,
        place: u32,
    },
    /// A sum that is made of the answer of a basis: its sums stand in numbered lists.
    Fold {
        /// Whether the basis is one of the relaxed program.
        relaxed: bool,
        basis: Items<u32>,
        /// The column along which the cost falls, where the answer is a ray.
        column: Option<u32>,
        /// The list of the sum, by its number.
        list: u32,
        /// The place of the sum in its list.
        at: u32,
    },
}

/// Why a program has no answer yet.
#[derive(Drop)]
pub enum LpStop {
    Wide(WideAt),
    OutOfMemory,
}

impl From<AllocError> for LpStop {
    ghost use Rattle.std.specs.Prelude.{◌≡◌};
    ghost use Rattle.bz_tableau.specs.declared.answers.LpStop.TheVariants.{OutOfMemory};

    ghost from_gives = { λ _ stop. stop ≡ OutOfMemory };

    fn from(_error: AllocError) -> LpStop {
        LpStop::OutOfMemory
    }
}

impl From<OutOfMemory> for LpStop {
    ghost use Rattle.std.specs.Prelude.{◌≡◌};
    ghost use Rattle.bz_tableau.specs.declared.answers.LpStop.TheVariants.{OutOfMemory as Refused};

    ghost from_gives = { λ _ stop. stop ≡ Refused };

    fn from(_error: OutOfMemory) -> LpStop {
        LpStop::OutOfMemory
    }
}
