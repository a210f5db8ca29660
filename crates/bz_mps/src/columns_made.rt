//! The columns of a model, from facts.
ghost use Rattle.std.specs.Prelude.{◌≡◌, IfOk, flat_map, zip};
ghost use Rattle.std.specs.List.{AllByRecursion, AllZip, enumerate_from};
ghost use Rattle.std.specs.Option.{ForSome};
ghost use Rattle.bz_facts.specs.SoundFacts.{AreSound, IsFinite};
ghost use Rattle.bz_mps.specs.ColumnEnds.{ends_by};
ghost use Rattle.bz_mps.specs.FactModel.{IsColumnOf, IsColumnWith, end_tests_at_column, end_tests_of_column};
ghost use Rattle.bz_mps.specs.TestAnswers.{Tests};

use crate::column_ends::{bound_of, ends_of, is_integer, test_ends};
use crate::placing::{by_place, push_item};
use bz_facts::{BoundLine, Facts, MpsStop};
use bz_model::Column;
use bz_num::Name;
use std::alloc::{AllocError, Global};

/// The name of these bytes.
pub(crate) fn name_of(alloc: Global, bytes: &[u8]) -> Result<Name, AllocError>
    ensures { IfOk result (λ name. name ≡ bytes.now) }
{
    Ok(Name::from_vec(Vec::from_slice(alloc, bytes)?))
}

/// The column of this name and these bound lines, where `marked` says whether a marker was open.
fn column_of(
    alloc: Global,
    name: &[u8],
    marked: bool,
    lines: &[BoundLine],
) -> Result<Column, MpsStop>
    requires { AllByRecursion (λ b. ForSome b.number IsFinite) lines.now }
    ensures column { IfOk result (IsColumnWith name.now marked lines.now) }
    ensures tests { Tests (end_tests_of_column (ends_by marked lines.now) lines.now) result }
{
    let ends = ends_of(marked, lines);
    test_ends(ends, lines)?;
    let name = name_of(alloc, name)?;
    Ok(Column {
        name,
        integer: is_integer(marked, lines),
        lower: bound_of(ends.lower),
        upper: bound_of(ends.upper),
    })
}

/// The columns that facts make.
pub(crate) fn columns_of(alloc: Global, facts: &Facts) -> Result<Vec<Column>, MpsStop>
    requires { AreSound facts.now }
    ensures columns { IfOk result (λ columns. AllZip (IsColumnOf facts.now.bounds) (enumerate_from 0 (zip facts.now.columns facts.now.integers)) columns.items) }
    ensures tests { Tests (flat_map (end_tests_at_column facts.now.bounds) (enumerate_from 0 facts.now.integers)) result }
{
    let marks = facts.integers.as_slice();
    let lines = by_place(alloc, marks.len(), facts.bounds.as_slice())?;
    let mut columns = Vec::new(alloc);
    for place in 0..marks.len() {
        let name = facts.columns.at(place);
        let column = column_of(alloc, name, marks[place], lines[place].as_slice())?;
        push_item(&mut columns, column)?;
    }
    Ok(columns)
}
