//! The lines of BOUNDS.
ghost use Rattle.std.specs.Prelude.{◌≡◌, ◌<◌, ◌^◌, ◌++◌, ◌∷◌, [], None, Some, drop, length, map, if◌then◌else◌};
ghost use Rattle.bz_num.specs.Decimals.{IsWithinLimits};
ghost use Rattle.bz_lines.specs.FieldLists.{field as field_at};
ghost use Rattle.bz_lines.specs.NameLists.{place as place_in};
ghost use Rattle.bz_facts.specs.LineAnswers.{Passes, PassesLine};
ghost use Rattle.bz_facts.specs.LineFacts.{bound_number as number_in, bound_set as set_in, behind_bound_set, names_bound_set as set_test, number_of};
ghost use Rattle.bz_facts.specs.LineSteps.{BoundAdded, bound_tests_by};
ghost use Rattle.bz_facts.specs.LineTests.{is_bound_length as length_test, is_wrong_side as wrong_side_test, number_tests, own_bound_tests};
ghost use Rattle.bz_facts.specs.Spellings.{is_infinite as infinite_test};
ghost use Rattle.bz_facts.specs.Words.{has_number as number_test};

use crate::faults::MpsKind;
use crate::records::{BoundLine, BoundType};
use crate::refusals::Refusal;
use crate::spelled::{is_below_zero, is_infinite, number};
use crate::tables::BoundTable;
use crate::words::{bound_type, field, has_number};
use bz_lines::Names;
use bz_num::Dec;

/// Whether a line of this kind may have so many fields.
fn is_bound_length(kind: BoundType, count: usize) -> bool
    ensures { result ≡ length_test kind count }
{
    if has_number(kind) {
        count == 3 || count == 4
    } else {
        count == 2 || count == 3 || count == 4
    }
}

/// Whether a line of this kind has a set name.
fn names_bound_set(kind: BoundType, fields: &[&[u8]]) -> bool
    ensures { result ≡ set_test kind (map (λ f. f.now) fields.now) }
{
    if has_number(kind) {
        fields.len() == 4
    } else {
        fields.len() >= 3
    }
}

/// The set of a line of this kind, the empty name where it is left out.
fn bound_set<'a>(kind: BoundType, fields: &[&'a [u8]]) -> &'a [u8]
    ensures { result.now ≡ set_in (Some kind) (map (λ f. f.now) fields.now) }
{
    if names_bound_set(kind, fields) {
        field(fields, 1)
    } else {
        b""
    }
}

/// Whether a number is infinite to the wrong side for a line of this kind.
fn is_wrong_side(kind: BoundType, number: Dec) -> bool
    requires { IsWithinLimits number }
    ensures { result ≡ wrong_side_test kind number }
{
    match kind {
        BoundType::Up | BoundType::Ui => is_infinite(number) && is_below_zero(number),
        BoundType::Lo | BoundType::Li => is_infinite(number) && !is_below_zero(number),
        BoundType::Fx => is_infinite(number),
        BoundType::Fr | BoundType::Mi | BoundType::Pl | BoundType::Bv => false,
    }
}

/// The bound of a line of this kind that has a number: none where it is infinite.
fn finite_number(kind: BoundType, digits: &[u8]) -> Result<Option<Dec>, MpsKind>
    ensures { Passes (number_tests digits.now ++ (wrong_side_test kind (number_of digits.now), MpsKind.Number) ∷ []) (λ n. n ≡ (if infinite_test (number_of digits.now) then None else Some (number_of digits.now))) result }
{
    let number = number(digits)?;
    if is_wrong_side(kind, number) {
        return Err(MpsKind::Number);
    }
    if is_infinite(number) {
        Ok(None)
    } else {
        Ok(Some(number))
    }
}

/// The bound of a line of this kind.
fn bound_number(kind: BoundType, digits: &[u8]) -> Result<Option<Dec>, MpsKind>
    ensures { Passes (if number_test kind then number_tests digits.now ++ (wrong_side_test kind (number_of digits.now), MpsKind.Number) ∷ [] else []) (λ n. n ≡ number_in kind digits.now) result }
{
    if has_number(kind) {
        finite_number(kind, digits)
    } else {
        Ok(None)
    }
}

/// What a line of this kind says, whose column's name stands at a place among the fields.
fn read_bound(
    columns: &Names,
    line: u32,
    kind: BoundType,
    name: &[u8],
    digits: &[u8],
) -> Result<BoundLine, MpsKind>
    requires { length columns.now < 2 ^ 32 }
    ensures { Passes (own_bound_tests columns.now kind (name.now ∷ digits.now ∷ [])) (λ b. b ≡ record { line = line; kind = kind; column = place_in columns.now name.now; number = number_in kind digits.now }) result }
{
    let Some(column) = columns.find(name) else {
        return Err(MpsKind::UnknownColumn);
    };
    let number = bound_number(kind, digits)?;
    Ok(BoundLine {
        line,
        kind,
        column: column as u32,
        number,
    })
}

/// What a line of this kind and of the section's own set says.
fn on_own_line(
    columns: &Names,
    line: u32,
    kind: BoundType,
    fields: &[&[u8]],
) -> Result<BoundLine, MpsKind>
    requires { length columns.now < 2 ^ 32 }
    ensures { let fs = behind_bound_set kind (map (λ f. f.now) fields.now) in Passes (own_bound_tests columns.now kind fs) (λ b. b ≡ record { line = line; kind = kind; column = place_in columns.now (field_at 0 fs); number = number_in kind (field_at 1 fs) }) result }
{
    if names_bound_set(kind, fields) {
        read_bound(columns, line, kind, field(fields, 2), field(fields, 3))
    } else {
        read_bound(columns, line, kind, field(fields, 1), field(fields, 2))
    }
}

/// Reads a line of BOUNDS, whose number is given: a kind, a set name, which may be left out, a column, and a number where
/// the kind has one. The columns have these names.
pub(crate) fn on_bound_line<'a>(
    table: &mut BoundTable<'a>,
    columns: &Names,
    line: u32,
    fields: &[&'a [u8]],
) -> Result<(), Refusal>
    requires { length columns.now < 2 ^ 32 }
    ensures { let fs = map (λ f. f.now) fields.now in PassesLine (bound_tests_by columns.now table.old fs) (λ _. BoundAdded columns.now line fs table.old table.new) result }
{
    let Some(kind) = bound_type(field(fields, 0)) else {
        return Err(Refusal::Fault(MpsKind::BoundKind));
    };
    if !is_bound_length(kind, fields.len()) {
        return Err(Refusal::Fault(MpsKind::Fields));
    }
    let set = bound_set(kind, fields);
    if table.set.is_own(set) {
        let bound = on_own_line(columns, line, kind, fields)?;
        table.lines.push(bound)?;
    }
    table.set.note_first(set);
    Ok(())
}
