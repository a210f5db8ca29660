//! Lines at a place of a text.
ghost use Rattle.std.specs.Prelude.{[], ◌≡◌, ◌↔◌, ◌∷◌, ◌+◌, ◌-◌, ◌<◌, ◌≤◌, ◌^◌, length, IfNone, IfSome, IsTrue};
ghost use Rattle.bz_cert.specs.declared.faults.CertKind.{CertKind};
ghost use Rattle.bz_cert.specs.declared.words.Word.{Word};
ghost use Rattle.bz_cert.specs.CertFaults.{BeginsWith, IsIn};
ghost use Rattle.bz_cert.specs.CertReading.{Answers, BeginsWithCertLine, BeginsWithWord, FailsAwaiting, FailsComing, Only};
ghost use Rattle.bz_cert.specs.CertText.{line_with, word_bytes};

use crate::faults::{CertKind, CertStop, fault};
use crate::line_parts::numbers_of;
use crate::spelling::cut_at;
use crate::words::{Word, word_of};
use std::alloc::Global;

/// What is left of a text, and how many lines stand before it.
#[derive(Clone, Copy)]
pub(crate) struct Place<'a> {
    /// What is left.
    pub rest: &'a [u8],
    /// How many lines stand before.
    pub lines: u32,
    pub ghost room: { length rest.now + lines < 2 ^ 32 - 1 },
}

/// The first line of a place, apart.
#[derive(Clone, Copy)]
pub(crate) struct WordLine<'a> {
    /// Its word.
    pub word: Word,
    /// What stands behind the word.
    pub behind: &'a [u8],
    /// What is left from the line's end on.
    pub from_feed: &'a [u8],
}

/// The first line of a place, read.
#[derive(Drop)]
pub(crate) struct NumberLine<'a> {
    /// Its word.
    pub word: Word,
    /// The numbers behind the word.
    pub numbers: Vec<i128>,
    /// What is left from the line's end on.
    pub from_feed: &'a [u8],
}

/// Whether the word is one of these.
fn is_in(words: &[Word], word: Word) -> bool
    ensures { IsTrue result ↔ IsIn words.now word }
{
    for w in words {
        if *w == word {
            return true;
        }
    }
    false
}

/// The word of these bytes, where it is one of the words.
fn word_among(field: &[u8], words: &[Word]) -> Option<Word>
    ensures found { IfSome result (λ word. (field.now ≡ word_bytes word) × IsIn words.now word) }
    ensures none { IfNone result ((word : Word) → field.now ≡ word_bytes word → IsIn words.now word → ⊥) }
{
    match word_of(field) {
        Some(word) if is_in(words, word) => Some(word),
        _ => None,
    }
}

/// The first line, whose word is one of these.
pub(crate) fn next_word<'a>(at: Place<'a>, words: &[Word]) -> Result<WordLine<'a>, CertStop>
    ensures { Answers
        (λ line. BeginsWithWord at.entry.rest.now line.word line.behind.now line.from_feed.now
        × IsIn words.now line.word)
        (FailsComing words.now at.entry.lines at.entry.rest.now) result }
{
    if at.rest.is_empty() {
        return Err(fault(at.lines, CertKind::End));
    }
    let (line, from_feed) = cut_at(at.rest, b'\n');
    let (field, behind) = cut_at(line, b' ');
    match word_among(field, words) {
        Some(word) => Ok(WordLine {
            word,
            behind,
            from_feed,
        }),
        None => Err(fault(at.lines + 1, CertKind::Line)),
    }
}

/// The first line with its numbers. Its word is one of these.
pub(crate) fn next_line<'a>(
    alloc: Global,
    at: Place<'a>,
    words: &[Word],
) -> Result<NumberLine<'a>, CertStop>
    ensures { Answers
        (λ line. BeginsWithCertLine at.entry.rest.now (line_with line.word line.numbers.items) line.from_feed.now
        × IsIn words.now line.word)
        (FailsAwaiting words.now at.entry.lines at.entry.rest.now) result }
{
    let WordLine {
        word,
        behind,
        from_feed,
    } = next_word(at, words)?;
    let numbers = numbers_of(alloc, at.lines + 1, word, behind)?;
    Ok(NumberLine {
        word,
        numbers,
        from_feed,
    })
}

/// The place behind the first line, which ends at the line feed that the rest begins with.
pub(crate) fn next_place<'a>(at: Place<'a>, from_feed: &'a [u8]) -> Result<Place<'a>, CertStop>
    requires short { length from_feed.now ≤ length at.rest.now }
    requires feed { BeginsWith 10 from_feed.now }
    ensures { Answers (λ behind. (from_feed.entry.now ≡ 10 ∷ behind.rest.now) × (behind.lines ≡ at.entry.lines + 1))
        (Only (at.entry.lines + 1) CertKind.End (from_feed.entry.now ≡ [])) result }
{
    match from_feed {
        [_, rest @ ..] => Ok(Place {
            rest,
            lines: at.lines + 1,
        }),
        [] => Err(fault(at.lines + 1, CertKind::End)),
    }
}

/// The numbers of the first line, whose word is this, and what is left from the line's end on.
pub(crate) fn next_line_of<'a>(
    alloc: Global,
    at: Place<'a>,
    word: Word,
) -> Result<(Vec<i128>, &'a [u8]), CertStop>
    ensures { Answers (λ r. BeginsWithCertLine at.entry.rest.now (line_with word r.0.items) r.1.now)
        (FailsAwaiting (word ∷ []) at.entry.lines at.entry.rest.now) result }
{
    let NumberLine {
        numbers,
        from_feed,
        ..
    } = next_line(alloc, at, &[word])?;
    Ok((numbers, from_feed))
}
