//! The lines of RHS and of RANGES.
ghost use Rattle.std.specs.Prelude.{◌≡◌, ◌<◌, ◌≤◌, ◌^◌, ◌++◌, IfOk, length, map, not, true};
ghost use Rattle.bz_facts.specs.LineAnswers.{PassesLine};
ghost use Rattle.bz_facts.specs.LineFacts.{behind_set, given_of, names_set as set_test, pairs as pairs_of, set_of as set_in};
ghost use Rattle.bz_facts.specs.LineSteps.{GivenAdded, given_tests_by, pairs_read};
ghost use Rattle.bz_facts.specs.LineTests.{is_same_row, own_given_tests, repeats};

use crate::faults::MpsKind;
use crate::pairs::{Pairs, read_pairs};
use crate::refusals::Refusal;
use crate::tables::{GivenTable, Givens};
use crate::words::field;
use bz_lines::Names;
use std::alloc::AllocError;

/// Whether the fields begin with a set name.
fn names_set(fields: &[&[u8]]) -> bool
    ensures { result ≡ set_test (map (λ f. f.now) fields.now) }
{
    fields.len() == 3 || fields.len() == 5
}

/// The set of a line, the empty name where it is left out.
fn set_of<'a>(fields: &[&'a [u8]]) -> &'a [u8]
    ensures { result.now ≡ set_in (map (λ f. f.now) fields.now) }
{
    if names_set(fields) {
        field(fields, 0)
    } else {
        b""
    }
}

/// Adds right sides or ranges, and says whether none was there and they are apart.
fn add_givens(givens: &mut Givens, pairs: Pairs) -> Result<bool, AllocError>
    ensures fresh { IfOk result (λ fresh. fresh ≡ not (repeats is_same_row givens.old (pairs_read pairs))) }
    ensures added { IfOk result (λ fresh. fresh ≡ true → givens.new ≡ givens.old ++ pairs_read pairs) }
{
    let fresh = givens.add(pairs.first)?;
    if !fresh {
        return Ok(false);
    }
    match pairs.second {
        None => Ok(true),
        Some(second) => {
            let fresh_too = givens.add(second)?;
            Ok(fresh_too)
        }
    }
}

/// Reads the pairs of a line of the section's own set.
fn on_own_line(givens: &mut Givens, rows: &Names, fields: &[&[u8]]) -> Result<(), Refusal>
    requires rows { length rows.now < 2 ^ 32 }
    requires least { 2 ≤ length fields.now }
    requires most { length fields.now ≤ 5 }
    ensures { let fs = behind_set (map (λ f. f.now) fields.now) in let more = map (given_of rows.now) (pairs_of fs) in PassesLine (own_given_tests rows.now givens.old more fs) (λ _. givens.new ≡ givens.old ++ more) result }
{
    let pairs = if names_set(fields) {
        read_pairs(rows, fields, 1)?
    } else {
        read_pairs(rows, fields, 0)?
    };
    let fresh = add_givens(givens, pairs)?;
    if !fresh {
        return Err(Refusal::Fault(MpsKind::DoubleEntry));
    }
    Ok(())
}

/// Reads a line of RHS or of RANGES: a set name, which may be left out, and one or two pairs of a row and a number. The
/// rows have these names.
pub(crate) fn on_given_line<'a>(
    table: &mut GivenTable<'a>,
    rows: &Names,
    fields: &[&'a [u8]],
) -> Result<(), Refusal>
    requires { length rows.now < 2 ^ 32 }
    ensures { let fs = map (λ f. f.now) fields.now in PassesLine (given_tests_by rows.now table.old fs) (λ _. GivenAdded rows.now fs table.old table.new) result }
{
    if !(2 <= fields.len() && fields.len() <= 5) {
        return Err(Refusal::Fault(MpsKind::Fields));
    }
    let set = set_of(fields);
    if table.set.is_own(set) {
        on_own_line(&mut table.givens, rows, fields)?;
    }
    table.set.note_first(set);
    Ok(())
}
