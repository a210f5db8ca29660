//! The reader of a partition's text.
ghost use Rattle.std.specs.Prelude.{ℕ, List, ◌≡◌, ◌↔◌, ◌<◌, ◌-◌, ◌^◌, ◌==◌, ◌||◌, ◌∷◌, [], false, true, min, Contains, IsTrue, IfNone, None, IfOk, IfSome, MatchOption, bytes_eq, length, map, not, slice_index, unwrap_or};
ghost use Rattle.std.specs.List.{list_all};
ghost use Rattle.std.specs.Map.{lookup};
ghost use Rattle.std.specs.Str.Parse.{digits_value};
ghost use Rattle.bz_lines.specs.LineReader.{to_come};
ghost use Rattle.bz_lines.specs.LineReading.{read_line};
ghost use Rattle.bz_lines.specs.NameLists.{is_among};
ghost use Rattle.bz_model.specs.Strict.{IsPartition};
ghost use Rattle.bz_part.specs.declared.faults.PartStop.TheVariants.{Fault};
ghost use Rattle.bz_part.specs.Partition.{HasNoGap, IsGap, ReadsPartition};
ghost use Rattle.bz_part.specs.PartitionLines.{column_tests, head_tests, is_digit as digit_test, is_number as number_test, name_on, number_on};
ghost use Rattle.bz_part.specs.PartitionSteps.{ReadsColumn, ReadsColumns, ReadsHead, Tested, number_tests};

use crate::faults::{PartFault, PartKind, PartStop};
use crate::numbers::ColumnNumbers;
use bz_lines::{Line, Lines, Names};
use bz_model::{Column, Model, greatest};
use std::alloc::{AllocError, Global};

/// The most blocks of a partition.
const MOST_BLOCKS: u32 = 256;

/// Whether the byte is a decimal digit.
fn is_digit(byte: u8) -> bool
    ensures { result ≡ digit_test byte }
{
    byte >= b'0' && byte <= b'9'
}

/// Whether the bytes are digits alone.
fn are_digits(bytes: &[u8]) -> bool
    ensures { result ≡ list_all digit_test bytes.now }
{
    bytes.iter().all(|b| is_digit(*b))
}

/// Whether the bytes don't begin with a zero that more bytes follow.
fn begins_well(bytes: &[u8]) -> bool
    ensures { result ≡ ((length bytes.now == 1) || not (slice_index bytes.now 0 == 48)) }
{
    match bytes {
        [_] => true,
        [first, ..] => *first != b'0',
        [] => true,
    }
}

/// Whether the bytes are a number in decimal, without sign and leading zero.
fn is_number(digits: &[u8]) -> bool
    ensures { result ≡ number_test digits.now }
{
    !digits.is_empty() && are_digits(digits) && begins_well(digits)
}

/// The number, or one above the most blocks where it is greater than that.
fn capped(number: u32) -> u32
    ensures { result ≡ min number 257 }
{
    if number > MOST_BLOCKS {
        MOST_BLOCKS + 1
    } else {
        number
    }
}

/// The number that digits spell, or one above the most blocks where it is greater than that.
fn value(digits: &[u8]) -> u32
    requires { list_all digit_test digits.now ≡ true }
    ensures { result ≡ min (digits_value 10 digits.now) 257 }
{
    let mut value = 0;
    for digit in digits {
        value = capped(value * 10 + (*digit - b'0') as u32);
    }
    value
}

/// The number of a part, or `kind` where the bytes are no number.
fn number_or(digits: &[u8], kind: PartKind) -> Result<u32, PartKind>
    ensures { Tested (number_tests kind digits.now) (λ n. n ≡ digits_value 10 digits.now) result }
{
    if !is_number(digits) {
        return Err(kind);
    }
    let number = value(digits);
    if number > MOST_BLOCKS {
        return Err(PartKind::Limit);
    }
    Ok(number)
}

/// The two fields, where there are two.
fn two<'a>(fields: &[&'a [u8]]) -> Option<(&'a [u8], &'a [u8])>
    ensures two { IfSome result (λ r. map (λ f. f.now) fields.now ≡ r.0.now ∷ r.1.now ∷ []) }
    ensures other { IfNone result ((length (map (λ f. f.now) fields.now) == 2) ≡ false) }
{
    match fields {
        [first, second] => Some((*first, *second)),
        _ => None,
    }
}

/// The number on a partition's first line.
fn number_on_head(line: &Line) -> Result<u32, PartKind>
    ensures { Tested (head_tests (read_line line.now)) (λ n. n ≡ number_on (read_line line.now)) result }
{
    let Some((word, digits)) = two(line.fields.as_slice()) else {
        return Err(PartKind::Head);
    };
    if word != b"cpxBendersPartition".as_slice() {
        return Err(PartKind::Head);
    }
    number_or(digits, PartKind::Head)
}

/// The names of the columns.
fn column_names(alloc: Global, columns: &[Column]) -> Result<Names<'_>, AllocError>
    ensures { IfOk result (λ names. (name : List ℕ) → is_among names name ≡ is_among (map (λ c. c.name) columns.now) name) }
{
    let mut names = Names::new(alloc);
    for column in columns {
        names.add(column.name.as_slice())?;
    }
    Ok(names)
}

/// The column that a later line names, and its number.
fn column_on<'a>(
    line: &Line<'a>,
    known: &Names,
    numbers: &ColumnNumbers,
) -> Result<(&'a [u8], u32), PartKind>
    ensures fresh { IfOk result (λ r. lookup (bytes_eq r.0.now) numbers.now ≡ None) }
    ensures tested { Tested (column_tests known.now (map (λ e. e.0) numbers.now) (read_line line.now)) (λ r. (r.0.now ≡ name_on (read_line line.now)) × (r.1 ≡ number_on (read_line line.now))) result }
{
    let Some((name, digits)) = two(line.fields.as_slice()) else {
        return Err(PartKind::Fields);
    };
    let Some(_) = known.find(name) else {
        return Err(PartKind::Unknown);
    };
    if numbers.find(name).is_some() {
        return Err(PartKind::Double);
    }
    match number_or(digits, PartKind::Value) {
        Ok(number) => Ok((name, number)),
        Err(kind) => Err(kind),
    }
}

/// The fault of a line.
fn at_line(line: u32, kind: PartKind) -> PartStop
    ensures { result ≡ Fault (record { line = line; kind = kind }) }
{
    PartStop::Fault(PartFault { line, kind })
}

/// Reads the first line, and gives its number.
fn read_head(alloc: Global, lines: &mut Lines) -> Result<u32, PartStop>
    ensures { ReadsHead (to_come lines.old) result (to_come lines.new) }
{
    let Some(line) = lines.next(alloc)? else {
        return Err(at_line(0, PartKind::Head));
    };
    match number_on_head(&line) {
        Ok(number) => Ok(number),
        Err(kind) => Err(at_line(line.number, kind)),
    }
}

/// Reads a later line into the numbers of columns.
fn read_column<'a>(
    numbers: &mut ColumnNumbers<'a>,
    line: &Line<'a>,
    known: &Names,
) -> Result<(), PartStop>
    ensures { ReadsColumn known.now numbers.old (read_line line.now) result numbers.new }
{
    match column_on(line, known, numbers) {
        Ok((name, number)) => numbers.add(name, number)?,
        Err(kind) => return Err(at_line(line.number, kind)),
    }
    Ok(())
}

/// Reads the later lines, and gives the numbers of the columns that they name.
fn read_columns<'a>(
    alloc: Global,
    lines: &mut Lines<'a>,
    known: &Names,
) -> Result<ColumnNumbers<'a>, PartStop>
    ensures { ReadsColumns known.now (to_come lines.old) result }
{
    let mut numbers = ColumnNumbers::new(alloc);
    while let Some(line) = lines.next(alloc)? {
        read_column(&mut numbers, &line, known)?;
    }
    Ok(numbers)
}

/// The part of each column: its own number, or else the first line's.
fn parts_by(
    alloc: Global,
    columns: &[Column],
    numbers: &ColumnNumbers,
    first: u32,
) -> Result<Vec<u32>, AllocError>
    ensures { IfOk result (λ part. part.items ≡ map (λ c. unwrap_or (lookup (bytes_eq c.name) numbers.now) first) columns.now) }
{
    let mut part = Vec::new(alloc);
    for column in columns {
        part.push(numbers.find(column.name.as_slice()).unwrap_or(first))?;
    }
    Ok(part)
}

/// Whether a column is in the block.
fn has(part: &[u32], block: u32) -> bool
    ensures { IsTrue result ↔ Contains part.now block }
{
    part.contains(&block)
}

/// The least block without a column, among those below the greatest number of a column.
fn first_gap(part: &[u32]) -> Option<u32>
    ensures { MatchOption result (HasNoGap part.now) (IsGap part.now) }
{
    for block in 1..greatest(part) {
        if !has(part, block) {
            return Some(block);
        }
    }
    None
}

/// The partition of a text: the part of each column, 0 for the master and the number of its block for every other. A
/// text that says no partition has a fault: that of the first line that fails, or, behind all lines, of the least block
/// below the greatest number that has no column.
pub fn read_part(alloc: Global, text: &[u8], model: &Model) -> Result<Vec<u32>, PartStop>
    requires { length text.now < 2 ^ 32 - 1 }
    ensures reads { ReadsPartition (λ part. part.items) text.now model.now result }
    ensures partition { IfOk result (λ part. IsPartition model.now part.items) }
{
    let columns = model.columns.as_slice();
    let known = column_names(alloc, columns)?;
    let mut lines = Lines::new(text);
    let first = read_head(alloc, &mut lines)?;
    let numbers = read_columns(alloc, &mut lines, &known)?;
    let part = parts_by(alloc, columns, &numbers, first)?;
    match first_gap(part.as_slice()) {
        Some(block) => Err(at_line(0, PartKind::Gap { block })),
        None => Ok(part),
    }
}
