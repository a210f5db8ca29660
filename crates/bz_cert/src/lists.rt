//! Counts, indexes and sparse lists among the numbers of a line.
ghost use Rattle.std.specs.Prelude.{ℕ, ℤ, List, ◌≡◌, ◌∷◌, ◌↔◌, ◌<◌, ◌*◌, ◌^◌, pos, min, take, drop, length, unsigned_abs, IfNone, IfSome, IsTrue};
ghost use Rattle.std.specs.List.{AllByRecursion};
ghost use Rattle.bz_num.specs.Row.{IsSparse};
ghost use Rattle.bz_cert.specs.declared.faults.CertKind.{CertKind};
ghost use Rattle.bz_cert.specs.CertFaults.{IsIndex, alternate, behind_list as numbers_behind_list, indexes_of, list_indexes, lists_indexes};
ghost use Rattle.bz_cert.specs.CertReading.{Answers, AreNoTwoLists, AreTwoLists, BeginWithNoList, BeginWithNoPairs, BeginsWithList, BeginsWithPairs, Only};

use crate::faults::{CertKind, CertStop, fault};
use crate::words::Word;
use std::alloc::Global;

/// Whether the number is from 0 to 2^32 - 1.
fn is_index(number: i128) -> bool
    ensures { IsTrue result ↔ IsIndex number }
{
    0 <= number && number <= u32::MAX as i128
}

/// Whether every second number, from the first one on, is an index.
fn alternate_are_indexes(numbers: &[i128]) -> bool
    ensures { IsTrue result ↔ AllByRecursion IsIndex (alternate numbers.now) }
{
    let mut rest = numbers;
    'pairs: while let [index, _, behind @ ..] = rest {
        if !is_index(*index) {
            return false;
        }
        rest = behind;
    }
    match rest {
        [index] => is_index(*index),
        _ => true,
    }
}

/// How many of the numbers belong to so many pairs.
fn length_of_pairs(count: i128, numbers: &[i128]) -> usize
    ensures { result ≡ min (2 * unsigned_abs count) (length numbers.now) }
{
    let pairs = count.unsigned_abs();
    if pairs > (numbers.len() / 2) as u128 {
        numbers.len()
    } else {
        2 * pairs as usize
    }
}

/// Whether the count and the indexes of a sparse list that begins the numbers are in their range, as far as they go.
fn list_has_indexes(numbers: &[i128]) -> bool
    ensures { IsTrue result ↔ AllByRecursion IsIndex (list_indexes numbers.now) }
{
    match numbers {
        [count, rest @ ..] => {
            let (pairs, _) = rest.split_at(length_of_pairs(*count, rest));
            is_index(*count) && alternate_are_indexes(pairs)
        }
        [] => true,
    }
}

/// The numbers behind a sparse list that begins them.
fn behind_list(numbers: &[i128]) -> &[i128]
    ensures { result.now ≡ numbers_behind_list numbers.now }
{
    match numbers {
        [count, rest @ ..] => rest.split_at(length_of_pairs(*count, rest)).1,
        [] => numbers,
    }
}

/// The numbers from a place on.
fn from_place(numbers: &[i128], place: usize) -> &[i128]
    ensures { result.now ≡ drop place numbers.now }
{
    numbers.split_at(place.min(numbers.len())).1
}

/// Whether the first number, where there is one, is an index.
fn begins_with_index(numbers: &[i128]) -> bool
    ensures { IsTrue result ↔ AllByRecursion IsIndex (take 1 numbers.now) }
{
    match numbers {
        [index, ..] => is_index(*index),
        [] => true,
    }
}

/// Whether the counts and the indexes of two sparse lists that begin the numbers are in their range, as far as they go.
fn lists_have_indexes(numbers: &[i128]) -> bool
    ensures { IsTrue result ↔ AllByRecursion IsIndex (lists_indexes numbers.now) }
{
    list_has_indexes(numbers) && list_has_indexes(behind_list(numbers))
}

/// Whether the counts and the indexes among the numbers of a cut's line are in their range.
fn cut_has_indexes(numbers: &[i128]) -> bool
    ensures { IsTrue result ↔ AllByRecursion IsIndex (indexes_of Word.Cut numbers.now) }
{
    begins_with_index(numbers) && lists_have_indexes(from_place(numbers, 4))
}

/// Whether the counts and indexes among the numbers of a line of the word are from 0 to 2^32 - 1.
pub(crate) fn has_indexes(word: Word, numbers: &[i128]) -> bool
    ensures { IsTrue result ↔ AllByRecursion IsIndex (indexes_of word numbers.now) }
{
    match word {
        Word::Block | Word::Cuts | Word::Split => begins_with_index(numbers),
        Word::Cut => cut_has_indexes(numbers),
        Word::Leaf => list_has_indexes(from_place(numbers, 2)),
        Word::Master | Word::Eta | Word::Value | Word::Ray | Word::End => true,
    }
}

/// Whether the indexes rise, and no number is zero or wide.
pub(crate) fn is_sparse(entries: &[(u32, i128)]) -> bool
    ensures { IsTrue result ↔ IsSparse entries.now }
{
    let mut low: u64 = 0;
    for entry in entries {
        if (entry.0 as u64) < low || entry.1 == 0 || entry.1 == i128::MIN {
            return false;
        }
        low = entry.0 as u64 + 1;
    }
    true
}

/// Whether this holds of both lists.
pub(crate) fn are_sparse(first: &[(u32, i128)], second: &[(u32, i128)]) -> bool
    ensures { IsTrue result ↔ (IsSparse first.now × IsSparse second.now) }
{
    is_sparse(first) && is_sparse(second)
}

/// A pair of an index and a number, in front of other numbers.
#[derive(Clone, Copy)]
struct Pair<'a> {
    /// The index.
    index: u32,
    /// The number.
    number: i128,
    /// The numbers behind them.
    behind: &'a [i128],
}

/// Pairs of an index and a number, in front of other numbers.
#[derive(Drop)]
pub(crate) struct Pairs<'a> {
    /// The pairs.
    pub pairs: Vec<(u32, i128)>,
    /// The numbers behind them.
    pub behind: &'a [i128],
}

/// Two sparse lists.
#[derive(Drop)]
pub(crate) struct TwoLists {
    /// The first one.
    pub first: Vec<(u32, i128)>,
    /// The second one.
    pub second: Vec<(u32, i128)>,
}

/// The pair of an index and a number in front.
fn take_pair(numbers: &[i128]) -> Option<Pair<'_>>
    ensures pair { IfSome result (λ pair. numbers.now ≡ pos pair.index ∷ pair.number ∷ pair.behind.now) }
    ensures index { IfSome result (λ pair. pair.index < 2 ^ 32) }
    ensures none { IfNone result
        ((i : ℕ) (z : ℤ) (behind : List ℤ) → numbers.now ≡ pos i ∷ z ∷ behind → i < 2 ^ 32 → ⊥) }
{
    let [index, number, behind @ ..] = numbers else {
        return None;
    };
    match u32::try_from(*index) {
        Ok(index) => Some(Pair {
            index,
            number: *number,
            behind,
        }),
        Err(_) => None,
    }
}

/// So many pairs in front of the numbers.
fn take_pairs(alloc: Global, line: u32, count: u32, numbers: &[i128]) -> Result<Pairs<'_>, CertStop>
    ensures { Answers (λ r. BeginsWithPairs count r.pairs.items numbers.now r.behind.now)
        (Only line CertKind.Line (BeginWithNoPairs count numbers.now)) result }
{
    let mut pairs = Vec::new(alloc);
    let mut rest = numbers;
    'pairs: for _ in 0..count {
        let Some(
            Pair {
                index,
                number,
                behind,
            },
        ) = take_pair(rest)
        else {
            return Err(fault(line, CertKind::Line));
        };
        pairs.push((index, number))?;
        rest = behind;
    }
    Ok(Pairs {
        pairs,
        behind: rest,
    })
}

/// The count in front, and the numbers behind it.
fn take_count(numbers: &[i128]) -> Option<(u32, &[i128])>
    ensures count { IfSome result (λ r. numbers.now ≡ pos r.0 ∷ r.1.now) }
    ensures range { IfSome result (λ r. r.0 < 2 ^ 32) }
    ensures none { IfNone result
        ((count : ℕ) (behind : List ℤ) → numbers.now ≡ pos count ∷ behind → count < 2 ^ 32 → ⊥) }
{
    let [count, behind @ ..] = numbers else {
        return None;
    };
    match u32::try_from(*count) {
        Ok(count) => Some((count, behind)),
        Err(_) => None,
    }
}

/// The pairs of a list in front of the numbers, where their count comes first.
pub(crate) fn take_list(alloc: Global, line: u32, numbers: &[i128]) -> Result<Pairs<'_>, CertStop>
    ensures { Answers (λ r. BeginsWithList r.pairs.items numbers.now r.behind.now)
        (Only line CertKind.Line (BeginWithNoList numbers.now)) result }
{
    let Some((count, behind)) = take_count(numbers) else {
        return Err(fault(line, CertKind::Line));
    };
    take_pairs(alloc, line, count, behind)
}

/// The pairs of two lists, which are all of the numbers.
pub(crate) fn two_lists(alloc: Global, line: u32, numbers: &[i128]) -> Result<TwoLists, CertStop>
    ensures { Answers (λ r. AreTwoLists r.first.items r.second.items numbers.now)
        (Only line CertKind.Line (AreNoTwoLists numbers.now)) result }
{
    let first = take_list(alloc, line, numbers)?;
    let second = take_list(alloc, line, first.behind)?;
    if second.behind.is_empty() {
        Ok(TwoLists {
            first: first.pairs,
            second: second.pairs,
        })
    } else {
        Err(fault(line, CertKind::Line))
    }
}
