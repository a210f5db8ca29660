//! Copies of stops, which the history keeps.
ghost use Rattle.std.specs.Prelude.{◌≡◌, IfOk};

use bz_event::Solved;
use bz_model::Master;
use bz_num::{Items, OutOfMemory};
use bz_tableau::{Lp, LpRow, WideAt};
use std::alloc::Global;

/// The same row.
fn copy_row(alloc: Global, row: &LpRow) -> Result<LpRow, OutOfMemory>
    ensures { IfOk result (λ copy. copy ≡ row.now) }
{
    Ok(LpRow {
        terms: row.terms.copy(alloc)?,
        rhs: row.rhs,
    })
}

/// The same rows.
fn copy_rows(alloc: Global, rows: &[LpRow]) -> Result<Items<LpRow>, OutOfMemory>
    ensures { IfOk result (λ copy. copy ≡ rows.now) }
{
    let mut copy = Vec::with_capacity(alloc, rows.len())?;
    for row in rows {
        copy.push_reserved(copy_row(alloc, row)?);
    }
    Ok(Items::from_vec(copy))
}

/// The same program.
fn copy_lp(alloc: Global, lp: &Lp) -> Result<Lp, OutOfMemory>
    ensures { IfOk result (λ copy. copy ≡ lp.now) }
{
    Ok(Lp {
        columns: lp.columns,
        rows: copy_rows(alloc, lp.rows.as_slice())?,
        cost: lp.cost.copy(alloc)?,
    })
}

/// The same point, where there is one.
fn copy_point(alloc: Global, point: &Option<Master>) -> Result<Option<Master>, OutOfMemory>
    ensures { IfOk result (λ copy. copy ≡ point.now) }
{
    match point {
        None => Ok(None),
        Some(point) => {
            let copy = point.copy(alloc)?;
            Ok(Some(copy))
        },
    }
}

/// The same place.
fn copy_place(alloc: Global, at: &WideAt) -> Result<WideAt, OutOfMemory>
    ensures { IfOk result (λ copy. copy ≡ at.now) }
{
    match at {
        WideAt::Build { row } => Ok(WideAt::Build { row: *row }),
        WideAt::Pivot {
            relaxed,
            basis,
            goal,
            row,
            pivot_row,
            column,
        } => Ok(WideAt::Pivot {
            relaxed: *relaxed,
            basis: basis.copy(alloc)?,
            goal: goal.copy(alloc)?,
            row: *row,
            pivot_row: *pivot_row,
            column: *column,
        }),
        WideAt::Den {
            relaxed,
            basis,
            place,
        } => Ok(WideAt::Den {
            relaxed: *relaxed,
            basis: basis.copy(alloc)?,
            place: *place,
        }),
        WideAt::Fold {
            relaxed,
            basis,
            column,
            list,
            at,
        } => Ok(WideAt::Fold {
            relaxed: *relaxed,
            basis: basis.copy(alloc)?,
            column: *column,
            list: *list,
            at: *at,
        }),
    }
}

/// The same stop.
pub(crate) fn copy_stop(alloc: Global, s: &Solved<WideAt>) -> Result<Solved<WideAt>, OutOfMemory>
    ensures { IfOk result (λ copy. copy ≡ s.now) }
{
    Ok(Solved {
        task: s.task,
        point: copy_point(alloc, &s.point)?,
        lp: copy_lp(alloc, &s.lp)?,
        answer: copy_place(alloc, &s.answer)?,
    })
}
