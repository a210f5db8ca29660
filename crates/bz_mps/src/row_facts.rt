//! The facts of each row.
ghost use Rattle.std.specs.Prelude.{◌≡◌, IfOk, map, slice_get};
ghost use Rattle.std.specs.Option.{option_map, unwrap_or};
ghost use Rattle.bz_facts.specs.Spellings.{zero_dec};
ghost use Rattle.bz_mps.specs.RowsMade.{AreByRow};

use crate::placing::by_place;
use bz_facts::{Entry, Facts, Given};
use bz_num::Dec;
use std::alloc::{AllocError, Global};

/// What was given of each row, by its place among all rows.
#[derive(Drop)]
pub(crate) struct ByRow {
    pub entries: Vec<Vec<Entry>>,
    pub right_sides: Vec<Vec<Given>>,
    pub ranges: Vec<Vec<Given>>,
}

/// The facts by their rows.
pub(crate) fn by_row(alloc: Global, facts: &Facts) -> Result<ByRow, AllocError>
    ensures { IfOk result (λ r. AreByRow facts.now (map (λ v. v.items) r.entries.items) (map (λ v. v.items) r.right_sides.items) (map (λ v. v.items) r.ranges.items)) }
{
    let count = facts.row_types.as_slice().len();
    let entries = by_place(alloc, count, facts.entries.as_slice())?;
    let right_sides = by_place(alloc, count, facts.right_sides.as_slice())?;
    let ranges = by_place(alloc, count, facts.ranges.as_slice())?;
    Ok(ByRow {
        entries,
        right_sides,
        ranges,
    })
}

/// The first number given.
pub(crate) fn first_number(givens: &[Given]) -> Option<Dec>
    ensures { result ≡ option_map (λ g. g.number) (slice_get givens.now 0) }
{
    match givens.first() {
        Some(given) => Some(given.number),
        None => None,
    }
}

/// The first number given, 0 where there is none.
pub(crate) fn number_or_zero(givens: &[Given]) -> Dec
    ensures { result ≡ unwrap_or (option_map (λ g. g.number) (slice_get givens.now 0)) zero_dec }
{
    match first_number(givens) {
        Some(number) => number,
        None => Dec { mant: 0, exp: 0 },
    }
}
