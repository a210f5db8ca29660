//! The lines of COLUMNS.
ghost use Rattle.std.specs.Prelude.{◌≡◌, ◌==◌, ◌<◌, ◌^◌, ◌++◌, ◌∷◌, ◌&&◌, ◌||◌, [], IfOk, false, length, map, nat_lt, not, true, if◌then◌else◌};
ghost use Rattle.bz_lines.specs.FieldLists.{field as field_at};
ghost use Rattle.bz_lines.specs.NameLists.{is_among as among, place};
ghost use Rattle.bz_facts.specs.LineFacts.{entries_on};
ghost use Rattle.bz_facts.specs.LineAnswers.{Passes, PassesLine};
ghost use Rattle.bz_facts.specs.LineSteps.{ColumnLineAdded, EntriesAdded, MarkerAdded, column_tests_by, entry_in, entry_tests_by, last_entry_tests, pairs_read};
ghost use Rattle.bz_facts.specs.LineTests.{is_same_entry, marker_tests, repeats};
ghost use Rattle.bz_facts.specs.TableNotes.{is_noted};
ghost use Rattle.bz_facts.specs.Words.{is_marker as marker_test};

use crate::faults::MpsKind;
use crate::pairs::{Pairs, read_pairs};
use crate::records::{Entry, Given};
use crate::refusals::Refusal;
use crate::tables::{Columns, Entries, Noted};
use crate::words::{field, is_marker};
use bz_lines::Names;
use std::alloc::AllocError;

/// How many columns there may be.
const MOST_COLUMNS: usize = 2048;

/// How many entries there may be.
const MOST_ENTRIES: usize = 65536;

/// Whether the name is one of these.
fn is_among(names: &Names, name: &[u8]) -> bool
    ensures { result ≡ among names.now name.now }
{
    match names.find(name) {
        Some(_) => true,
        None => false,
    }
}

/// Reads a marker line.
fn on_marker_line(columns: &mut Columns, fields: &[&[u8]]) -> Result<(), MpsKind>
    ensures { let fs = map (λ f. f.now) fields.now in Passes (marker_tests columns.old.marked (field_at 2 fs)) (λ _. MarkerAdded fs columns.old columns.new) result }
{
    let word = field(fields, 2);
    let opens = word == b"'INTORG'".as_slice();
    let closes = word == b"'INTEND'".as_slice();
    if !(opens || closes) {
        return Err(MpsKind::Marker);
    }
    if columns.marked == opens {
        return Err(MpsKind::MarkerOpen);
    }
    columns.marked = opens;
    columns.current = Noted::none();
    Ok(())
}

/// Whether a column comes again after another one or a marker.
fn is_split(columns: &Columns, name: &[u8]) -> bool
    ensures { result ≡ (among columns.now.names name.now && not (is_noted columns.now.current name.now)) }
{
    is_among(&columns.names, name) && !columns.current.is(name)
}

/// The entry of a column that a pair gives.
fn entry(column: u32, pair: Given) -> Entry
    ensures { result ≡ entry_in column pair }
{
    Entry {
        column,
        row: pair.row,
        number: pair.number,
    }
}

/// Adds the entries of a column, and says whether none was there and they are apart.
fn add_entries(entries: &mut Entries, column: u32, pairs: Pairs) -> Result<bool, AllocError>
    ensures fresh { IfOk result (λ fresh. fresh ≡ not (repeats is_same_entry entries.old (map (entry_in column) (pairs_read pairs)))) }
    ensures added { IfOk result (λ fresh. fresh ≡ true → entries.new ≡ entries.old ++ map (entry_in column) (pairs_read pairs)) }
{
    let fresh = entries.add(entry(column, pairs.first))?;
    if !fresh {
        return Ok(false);
    }
    match pairs.second {
        None => Ok(true),
        Some(second) => {
            let fresh_too = entries.add(entry(column, second))?;
            Ok(fresh_too)
        }
    }
}

/// Notes whether a column that is new is an integer.
fn note_integer(integers: &mut Vec<bool>, new: bool, integer: bool) -> Result<(), AllocError>
    ensures { IfOk result (λ _. integers.new.items ≡ integers.old.items ++ (if new then integer ∷ [] else [])) }
{
    if new {
        integers.push(integer)?;
    }
    Ok(())
}

/// Whether a line of entries may have so many fields.
fn is_entry_length(count: usize) -> bool
    ensures { result ≡ ((count == 3) || (count == 5)) }
{
    count == 3 || count == 5
}

/// Whether there is a column too many, where the columns are full and this one may be new, or an entry.
fn is_past_limit(full: bool, new: bool, entries: usize) -> bool
    ensures { result ≡ ((new && full) || nat_lt 65536 entries) }
{
    new && full || entries > MOST_ENTRIES
}

/// Enters a column's pairs, where it is not split.
fn enter<'a>(columns: &mut Columns<'a>, name: &'a [u8], pairs: Pairs) -> Result<(), Refusal>
    requires { length columns.old.names < 2 ^ 32 }
    ensures { let more = map (entry_in (place columns.old.names name.now)) (pairs_read pairs) in PassesLine (last_entry_tests columns.old name.now more) (λ _. EntriesAdded name.now more columns.old columns.new) result }
{
    let full = columns.names.len() >= MOST_COLUMNS;
    let column = columns.names.add(name)?;
    let fresh = add_entries(&mut columns.entries, column.place as u32, pairs)?;
    if !fresh {
        return Err(Refusal::Fault(MpsKind::DoubleEntry));
    }
    let past = is_past_limit(full, column.new, columns.entries.len());
    if past {
        return Err(Refusal::Fault(MpsKind::Limit));
    }
    note_integer(&mut columns.integers, column.new, columns.marked)?;
    columns.current = Noted::some(name);
    Ok(())
}

/// Reads a line of entries.
fn on_entry_line<'a>(
    columns: &mut Columns<'a>,
    rows: &Names,
    fields: &[&'a [u8]],
) -> Result<(), Refusal>
    requires rows { length rows.now < 2 ^ 32 }
    requires columns { length columns.old.names < 2 ^ 32 }
    requires marker { marker_test (map (λ f. f.now) fields.now) ≡ false }
    ensures { let fs = map (λ f. f.now) fields.now in PassesLine (entry_tests_by rows.now columns.old fs) (λ _. EntriesAdded (field_at 0 fs) (entries_on rows.now columns.old.names fs) columns.old columns.new) result }
{
    if !is_entry_length(fields.len()) {
        return Err(Refusal::Fault(MpsKind::Fields));
    }
    let name = field(fields, 0);
    if is_split(columns, name) {
        return Err(Refusal::Fault(MpsKind::SplitColumn));
    }
    let pairs = read_pairs(rows, fields, 1)?;
    enter(columns, name, pairs)
}

/// Reads a line of COLUMNS: a column with one or two pairs of a row and a number, or a marker line. The rows have these
/// names.
pub(crate) fn on_column_line<'a>(
    columns: &mut Columns<'a>,
    rows: &Names,
    fields: &[&'a [u8]],
) -> Result<(), Refusal>
    requires rows { length rows.now < 2 ^ 32 }
    requires columns { length columns.old.names < 2 ^ 32 }
    ensures { let fs = map (λ f. f.now) fields.now in PassesLine (column_tests_by rows.now columns.old fs) (λ _. ColumnLineAdded rows.now fs columns.old columns.new) result }
{
    if is_marker(fields) {
        on_marker_line(columns, fields)?;
        Ok(())
    } else {
        on_entry_line(columns, rows, fields)
    }
}
