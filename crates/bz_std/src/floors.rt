//! The floor program of a block.
ghost use Rattle.std.specs.Prelude.{◌≡◌, ◌<◌, ◌≤◌, IfOk, length, map};
ghost use Rattle.std.specs.List.{AllByRecursion};
ghost use Rattle.bz_algebra.specs.Sums.{AllBelow};
ghost use Rattle.bz_model.specs.Limits.{list_limit};
ghost use Rattle.bz_model.specs.Parting.{blocks_of};
ghost use Rattle.bz_tableau.specs.Programs.{IsLp};
ghost use Rattle.bz_std.specs.Posed.{AreRowsOf, IsProgramOf};
ghost use Rattle.bz_std.specs.Tasks.{falling_line, floor};

use crate::columns::{push_row, row_over_columns};
use crate::costs::cost_over_columns;
use bz_model::{Ineq, Split};
use bz_num::{Items, OutOfMemory};
use bz_tableau::{Lp, LpRow};
use std::alloc::Global;

/// The rows along which no inequality rises.
fn falling_rows(alloc: Global, ineqs: &[Ineq]) -> Result<Vec<LpRow>, OutOfMemory>
    requires { AllByRecursion (λ i. AllBelow list_limit i.own) ineqs.now }
    ensures { IfOk result (λ rows. AreRowsOf (map falling_line ineqs.now) rows.items) }
{
    let mut rows = Vec::new(alloc);
    for ineq in ineqs {
        let terms = row_over_columns(alloc, &ineq.own)?;
        push_row(&mut rows, LpRow { terms, rhs: 0 })?;
    }
    Ok(rows)
}

/// The floor program of a block.
pub fn floor_lp(alloc: Global, split: &Split, block: u32) -> Result<Lp, OutOfMemory>
    requires first { 0 < block }
    requires last { block ≤ blocks_of split.now.part }
    ensures program { IfOk result (IsProgramOf (floor split.now.model split.now.part block)) }
    ensures is_lp { IfOk result IsLp }
{
    let rows = falling_rows(alloc, split.inequalities(block))?;
    let cost = cost_over_columns(alloc, split, block)?;
    Ok(Lp {
        columns: 2 * split.width(block),
        rows: Items::from_vec(rows),
        cost,
    })
}
