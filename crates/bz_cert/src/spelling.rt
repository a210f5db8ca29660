//! Bytes up to a place, and numbers behind blanks.
ghost use Rattle.std.specs.Prelude.{ℕ, ℤ, ◌≡◌, ◌≢◌, ◌==◌, IfNone, IfSome, IsTrue, ◌↔◌, List, Some, ◌++◌, ◌≤◌, length};
ghost use Rattle.std.specs.List.{AllByRecursion, position_or_len};
ghost use Rattle.bz_cert.specs.declared.faults.CertKind.{CertKind};
ghost use Rattle.bz_cert.specs.CertFaults.{BeginsWith};
ghost use Rattle.bz_cert.specs.CertReading.{Answers, AreNumbers, IsNoNumbers, IsSpelled, Only};

use crate::faults::{CertKind, CertStop, fault};
use itoa::Buffer;
use std::alloc::Global;
use std::str;

/// The place of the first such byte, or the text's length where there is none.
fn place_of(text: &[u8], byte: u8) -> usize
    ensures place { result ≡ position_or_len (λ b. b == byte) text.now }
    ensures within { result ≤ length text.now }
{
    for (at, b) in text.iter().enumerate() {
        if *b == byte {
            return at;
        }
    }
    text.len()
}

/// The text before the first such byte, and the text from there on.
pub(crate) fn cut_at(text: &[u8], byte: u8) -> (&[u8], &[u8])
    ensures joined { text.now ≡ result.0.now ++ result.1.now }
    ensures before { AllByRecursion (λ b. b ≢ byte) result.0.now }
    ensures from_there { BeginsWith byte result.1.now }
{
    text.split_at(place_of(text, byte))
}

/// Whether they are the same bytes.
pub(crate) fn same_bytes(first: &[u8], second: &[u8]) -> bool
    ensures { IsTrue result ↔ (first.now ≡ second.now) }
{
    first == second
}

/// What stands behind the front, where the text begins with it.
pub(crate) fn text_behind<'a>(text: &'a [u8], front: &[u8]) -> Option<&'a [u8]>
    ensures found { IfSome result (λ behind. text.now ≡ front.now ++ behind.now) }
    ensures none { IfNone result ((behind : List ℕ) → text.now ≡ front.now ++ behind → ⊥) }
{
    text.strip_prefix(front)
}

/// The only number that the field may spell.
fn candidate(field: &[u8]) -> Option<i128>
    ensures { (z : ℤ) → IsSpelled field.now z → result ≡ Some z }
{
    match str::from_utf8(field) {
        Ok(text) => match text.parse::<i128>() {
            Ok(number) => Some(number),
            Err(_) => None,
        },
        Err(_) => None,
    }
}

/// The number that the field spells: `0`, or digits without a leading zero, with `-` in front where it is negative.
fn number_of(field: &[u8]) -> Option<i128>
    ensures spelled { IfSome result (IsSpelled field.now) }
    ensures no_other { IfNone result ((z : ℤ) → IsSpelled field.now z → ⊥) }
{
    let number = candidate(field)?;
    if number == i128::MIN {
        return None;
    }
    let mut buffer = Buffer::new();
    if buffer.format(number).as_bytes() == field {
        Some(number)
    } else {
        None
    }
}

/// The numbers of the rest of a line, each behind one blank.
pub(crate) fn numbers_in(alloc: Global, line: u32, text: &[u8]) -> Result<Vec<i128>, CertStop>
    ensures { Answers (λ numbers. AreNumbers text.now numbers.items)
        (Only line CertKind.Number (IsNoNumbers text.now)) result }
{
    let mut numbers = Vec::new(alloc);
    let mut rest = text;
    'numbers: while let Some(behind) = text_behind(rest, b" ") {
        let (field, after) = cut_at(behind, b' ');
        let Some(number) = number_of(field) else {
            return Err(fault(line, CertKind::Number));
        };
        numbers.push(number)?;
        rest = after;
    }
    if rest.is_empty() {
        Ok(numbers)
    } else {
        Err(fault(line, CertKind::Number))
    }
}
