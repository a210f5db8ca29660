//! The rows and the objective of a model, from facts.
ghost use Rattle.std.specs.Prelude.{◌≡◌, ◌<◌, ◌∷◌, [], ◌||◌, false, true, length, position, map, None, IfOk};
ghost use Rattle.std.specs.List.{AllZip, list_any};
ghost use Rattle.bz_num.specs.Fold.{is_wide};
ghost use Rattle.std.proofs.Math.IntN.{neg_ℤ};
ghost use Rattle.bz_facts.specs.LineTests.{is_free as free_kind};
ghost use Rattle.bz_facts.specs.SoundFacts.{AreSound};
ghost use Rattle.bz_mps.specs.FactModel.{IsRowOf, IsRowWith, end_test_at_row, fault};
ghost use Rattle.bz_mps.specs.RowsMade.{AreByRow, AreRowFacts, IsObjectiveWith, Unless};
ghost use Rattle.bz_mps.specs.ScaledRows.{constraints, decimals_of, has_wide_term, is_wide_objective, is_wide_row, most_digits, objective_entries, objective_place as place_of_objective, objective_side, row_at as row_facts_at, scaled, scaled_row, terms_by};
ghost use Rattle.bz_mps.specs.TestAnswers.{Tests};

use crate::bound_numbers::power_of_ten;
use crate::columns_made::name_of;
use crate::placing::push_item;
use crate::row_facts::{ByRow, first_number, number_or_zero};
use crate::row_sides::sides_of;
use crate::row_terms::{digits_of_row, terms_of};
use crate::scaling::scaled_number;
use bz_facts::{Entry, Facts, MpsFault, MpsKind, MpsStop, RowType};
use bz_model::Row;
use bz_num::{Dec, SparseRow, narrow_negation};
use std::alloc::{AllocError, Global};

/// Whether a row of this kind is of kind N.
fn is_free(kind: RowType) -> bool
    ensures { result ≡ free_kind kind }
{
    matches!(kind, RowType::Free)
}

/// The row of this name, kind, entries, right side and range, and none where a number of it is wide.
fn row_of(
    alloc: Global,
    name: &[u8],
    kind: RowType,
    entries: &[Entry],
    rhs: Dec,
    range: Option<Dec>,
) -> Result<Option<Row>, AllocError>
    requires kind { free_kind kind ≡ false }
    requires facts { AreRowFacts entries.now rhs range }
    ensures { IfOk result (Unless (is_wide_row (scaled_row kind entries.now rhs range)) (IsRowWith name.now (scaled_row kind entries.now rhs range))) }
{
    let digits = digits_of_row(entries, rhs, range);
    let Some(terms) = terms_of(alloc, digits, entries)? else {
        return Ok(None);
    };
    let Some(sides) = sides_of(kind, digits, rhs, range) else {
        return Ok(None);
    };
    let name = name_of(alloc, name)?;
    Ok(Some(Row {
        name,
        terms,
        lower: sides.lower,
        upper: sides.upper,
    }))
}

/// The row at a place, and none where a number of it is wide.
fn row_at(
    alloc: Global,
    facts: &Facts,
    by_row: &ByRow,
    place: usize,
    kind: RowType,
) -> Result<Option<Row>, AllocError>
    requires sound { AreSound facts.now }
    requires by_row { AreByRow facts.now (map (λ v. v.items) by_row.now.entries.items) (map (λ v. v.items) by_row.now.right_sides.items) (map (λ v. v.items) by_row.now.ranges.items) }
    requires place { place < length facts.now.row_types }
    requires kind { free_kind kind ≡ false }
    ensures { IfOk result (Unless (is_wide_row (row_facts_at facts.now (place, kind))) (IsRowOf facts.now (place, kind))) }
{
    let entries = by_row.entries[place].as_slice();
    let rhs = number_or_zero(by_row.right_sides[place].as_slice());
    let range = first_number(by_row.ranges[place].as_slice());
    row_of(alloc, facts.row_names.at(place), kind, entries, rhs, range)
}

/// The rows but those of kind N, where no number of them is wide.
pub(crate) fn rows_of(alloc: Global, facts: &Facts, by_row: &ByRow) -> Result<Vec<Row>, MpsStop>
    requires sound { AreSound facts.now }
    requires by_row { AreByRow facts.now (map (λ v. v.items) by_row.now.entries.items) (map (λ v. v.items) by_row.now.right_sides.items) (map (λ v. v.items) by_row.now.ranges.items) }
    ensures rows { IfOk result (λ rows. AllZip (IsRowOf facts.now) (constraints facts.now.row_types) rows.items) }
    ensures tests { Tests (map (end_test_at_row facts.now) (constraints facts.now.row_types)) result }
{
    let kinds = facts.row_types.as_slice();
    let mut rows = Vec::new(alloc);
    for place in 0..kinds.len() {
        let kind = kinds[place];
        if is_free(kind) {
            continue;
        }
        let row = row_at(alloc, facts, by_row, place, kind)?;
        let Some(row) = row else {
            return Err(MpsStop::Fault(MpsFault {
                line: facts.end,
                kind: MpsKind::TooWide,
            }));
        };
        push_item(&mut rows, row)?;
    }
    Ok(rows)
}

/// The objective of a model: its terms, its constant and its scale.
#[derive(Drop)]
pub(crate) struct Objective {
    pub cost: SparseRow,
    pub constant: i128,
    pub scale: i128,
}

/// The objective of these entries and this right side, and none where a number of it is wide.
fn objective_with(
    alloc: Global,
    entries: &[Entry],
    rhs: Dec,
) -> Result<Option<Objective>, AllocError>
    requires { AreRowFacts entries.now rhs None }
    ensures { IfOk result (Unless (has_wide_term (terms_by (most_digits (decimals_of entries.now rhs None)) entries.now) || is_wide (neg_ℤ (scaled (most_digits (decimals_of entries.now rhs None)) rhs))) (IsObjectiveWith entries.now rhs)) }
{
    let digits = digits_of_row(entries, rhs, None);
    let Some(cost) = terms_of(alloc, digits, entries)? else {
        return Ok(None);
    };
    let Some(side) = scaled_number(digits, rhs) else {
        return Ok(None);
    };
    Ok(Some(Objective {
        cost,
        constant: narrow_negation(side),
        scale: power_of_ten(digits),
    }))
}

/// The place of the first row of kind N, if there is one.
fn first_free(kinds: &[RowType]) -> Option<usize>
    ensures { result ≡ position free_kind kinds.now }
{
    kinds.iter().position(|kind| is_free(*kind))
}

/// The place of the objective among all rows.
pub(crate) fn objective_place(kinds: &[RowType]) -> usize
    requires { list_any free_kind kinds.now ≡ true }
    ensures place { result ≡ place_of_objective kinds.now }
    ensures inside { result < length kinds.now }
{
    match first_free(kinds) {
        Some(place) => place,
        None => unreachable!(),
    }
}

/// The objective, where no number of it is wide.
pub(crate) fn objective_of(
    alloc: Global,
    facts: &Facts,
    by_row: &ByRow,
) -> Result<Objective, MpsStop>
    requires sound { AreSound facts.now }
    requires by_row { AreByRow facts.now (map (λ v. v.items) by_row.now.entries.items) (map (λ v. v.items) by_row.now.right_sides.items) (map (λ v. v.items) by_row.now.ranges.items) }
    ensures objective { IfOk result (IsObjectiveWith (objective_entries facts.now) (objective_side facts.now)) }
    ensures tests { Tests ((is_wide_objective facts.now, fault facts.now.end MpsKind.TooWide) ∷ []) result }
{
    let place = objective_place(facts.row_types.as_slice());
    let entries = by_row.entries[place].as_slice();
    let rhs = number_or_zero(by_row.right_sides[place].as_slice());
    match objective_with(alloc, entries, rhs)? {
        Some(objective) => Ok(objective),
        None => Err(MpsStop::Fault(MpsFault {
            line: facts.end,
            kind: MpsKind::TooWide,
        })),
    }
}
