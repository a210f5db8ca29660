//! A reader of the lines of a text that are neither comment nor empty.
ghost use Rattle.std.specs.Prelude.{◌≡◌, ◌==◌, ◌+◌, ◌-◌, ◌<◌, ◌≤◌, ◌^◌, ◌∷◌, [], IfNone, IfOk, IfSome, length, map, not};
ghost use Rattle.std.specs.List.{list_all, position};
ghost use Rattle.std.specs.Prelude.{slice_index};
ghost use Rattle.std.specs.Str.Lines.{lines};
ghost use Rattle.bz_lines.specs.LineReader.{lines_in};
ghost use Rattle.bz_lines.specs.LineReading.{NextLine};
ghost use Rattle.bz_lines.specs.Lines.{fields_of, is_blank as blank_test};
ghost use Rattle.bz_lines.specs.NumberedLines.{is_kept as kept_test, is_text_byte, line_count, numbered_after, numbered_line};

use crate::cutting::{is_blank, without_return};
use smallvec::SmallVec;
use std::alloc::{AllocError, Global};
use std::marker::Model;

/// A line that is neither comment nor empty.
#[derive(Drop)]
pub struct Line<'a> {
    /// Its number, counted from 1 over all lines of the text.
    pub number: u32,
    /// Whether it begins with neither a blank nor a tab.
    pub header: bool,
    /// Its fields, each the slice of the text: the longest pieces without a blank or a tab.
    pub fields: SmallVec<&'a [u8], 8>,
}

/// Why there is no next line.
#[derive(Clone, Copy, Debug, PartialEq, Eq)]
pub enum LineFault {
    /// The line of this number has a byte below 32 other than tab.
    NotText {
        /// The line's number.
        line: u32,
    },
    /// There is no memory.
    OutOfMemory,
}

impl From<AllocError> for LineFault {
    ghost use Rattle.bz_lines.specs.declared.reader.LineFault.TheVariants.{OutOfMemory};

    ghost from_gives = { λ _ e. e ≡ OutOfMemory };

    fn from(_error: AllocError) -> LineFault {
        LineFault::OutOfMemory
    }
}

/// A reader of a text by its lines. Contracts see the text that is left and the count of lines that were read.
#[derive(Drop)]
pub struct Lines<'a> {
    rest: &'a [u8],
    number: u32,
}

impl<'a> Model for Lines<'a> {
    ghost use Rattle.std.specs.Prelude.{◌+◌, ◌<◌, ◌^◌, length};
    ghost use Rattle.bz_lines.specs.LineReader.{LineReader};

    ghost Value = { LineReader };

    ghost view = { λ r. record { rest = r.rest.now; number = r.number } };

    ghost invariant = { λ r. r.number + length r.rest.now < 2 ^ 32 };
}

/// The place of the first line feed.
fn line_feed(text: &[u8]) -> Option<usize>
    ensures { result ≡ position (λ b. b == 10) text.now }
{
    text.iter().position(|b| *b == b'\n')
}

/// A text's first line, and the text behind it.
#[derive(Clone, Copy)]
struct FirstLine<'a> {
    line: &'a [u8],
    rest: &'a [u8],
}

/// Cuts a text behind its first line.
fn cut_line(text: &[u8]) -> FirstLine<'_>
    requires { 0 < length text.now }
    ensures lines { lines text.now ≡ result.line.now ∷ lines result.rest.now }
    ensures shorter { length result.rest.now < length text.now }
{
    match line_feed(text) {
        Some(at) => FirstLine {
            line: without_return(&text[..at]),
            rest: &text[at + 1..],
        },
        None => FirstLine {
            line: text,
            rest: &text[text.len()..],
        },
    }
}

/// Whether the line is a comment, which begins with `*`.
fn is_comment(line: &[u8]) -> bool
    ensures { result ≡ (slice_index line.now 0 == 42) }
{
    match line {
        [b'*', ..] => true,
        _ => false,
    }
}

/// Whether the line is of blanks and tabs alone.
fn is_empty(line: &[u8]) -> bool
    ensures { result ≡ list_all blank_test line.now }
{
    line.iter().all(|b| is_blank(*b))
}

/// Whether the line is neither a comment nor empty.
fn is_kept(line: &[u8]) -> bool
    ensures { result ≡ kept_test line.now }
{
    !is_comment(line) && !is_empty(line)
}

/// Whether the line has no byte below 32 but tabs.
fn is_text(line: &[u8]) -> bool
    ensures { result ≡ list_all is_text_byte line.now }
{
    line.iter().all(|b| *b >= 32 || *b == b'\t')
}

/// Whether the line begins with neither a blank nor a tab.
fn is_header(line: &[u8]) -> bool
    ensures { result ≡ not (blank_test (slice_index line.now 0)) }
{
    match line {
        [first, ..] => !is_blank(*first),
        [] => true,
    }
}

/// The fields of a line.
fn fields<'a>(alloc: Global, line: &'a [u8]) -> Result<SmallVec<&'a [u8], 8>, AllocError>
    ensures { IfOk result (λ fields. map (λ f. f.now) fields.items ≡ fields_of line.now) }
{
    line.split(|b| is_blank(*b))
        .filter(|piece| !piece.is_empty())
        .collect(alloc)
}

/// What stands behind a text's first lines: the last of them, where it is neither comment nor empty and the others are,
/// the text that is left, and the last one's number.
#[derive(Clone, Copy)]
struct Passed<'a> {
    line: Option<&'a [u8]>,
    rest: &'a [u8],
    number: u32,
}

/// Passes comments and empty lines, and the first line that is neither. `number` lines come before the text.
fn pass<'a>(text: &'a [u8], number: u32) -> Passed<'a>
    requires { number + length text.now < 2 ^ 32 }
    ensures none { IfNone result.line (numbered_after number text.now ≡ []) }
    ensures end { IfNone result.line (result.rest.now ≡ []) }
    ensures line { IfSome result.line (λ line. numbered_after number text.now ≡ numbered_line (result.number, line.now) ∷ numbered_after result.number result.rest.now) }
    ensures count { result.number + line_count result.rest.now ≡ number + line_count text.now }
    ensures fits { result.number + length result.rest.now < 2 ^ 32 }
{
    let mut rest = text;
    let mut read = number;
    while !rest.is_empty() {
        let first = cut_line(rest);
        rest = first.rest;
        read += 1;
        if is_kept(first.line) {
            return Passed {
                line: Some(first.line),
                rest,
                number: read,
            };
        }
    }
    Passed {
        line: None,
        rest,
        number: read,
    }
}

impl<'a> Lines<'a> {
    /// A reader that stands before a text's first line.
    pub fn new(text: &'a [u8]) -> Lines<'a>
        requires { length text.now < 2 ^ 32 - 1 }
        ensures { result ≡ record { rest = text.now; number = 0 } }
    {
        Lines {
            rest: text,
            number: 0,
        }
    }

    /// The count of lines that were read, comments and empty lines counted.
    pub fn number(&self) -> u32
        ensures { result ≡ self.now.number }
    {
        self.number
    }

    /// The next line that is neither comment nor empty, and nothing at the end of the text. Where that line has a byte
    /// below 32 other than tab it is `NotText`, and the reader stands behind the line. For want of memory the reader
    /// stays where it is.
    pub fn next(&mut self, alloc: Global) -> Result<Option<Line<'a>>, LineFault>
        ensures answer { NextLine self.old result self.new }
        ensures count { lines_in self.new ≡ lines_in self.old }
    {
        let passed = pass(self.rest, self.number);
        let Some(line) = passed.line else {
            self.rest = passed.rest;
            self.number = passed.number;
            return Ok(None);
        };
        if !is_text(line) {
            self.rest = passed.rest;
            self.number = passed.number;
            return Err(LineFault::NotText {
                line: passed.number,
            });
        }
        let fields = fields(alloc, line)?;
        self.rest = passed.rest;
        self.number = passed.number;
        Ok(Some(Line {
            number: passed.number,
            header: is_header(line),
            fields,
        }))
    }
}
