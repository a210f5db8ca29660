//! The terms of a row as whole numbers.
ghost use Rattle.std.specs.Prelude.{◌≡◌, ◌++◌, ◌∷◌, [], true, not, map, IfOk};
ghost use Rattle.bz_mps.specs.NumbersMade.{IsScalable};
ghost use Rattle.bz_mps.specs.RowsMade.{AreScalable, RiseFrom, Unless};
ghost use Rattle.bz_mps.specs.ScaledRows.{decimals_of, digits_behind_point, has_wide_term, most_digits, terms_by};

use crate::scaling::scaled_number;
use bz_facts::Entry;
use bz_num::{Dec, SparseRow};
use std::alloc::{AllocError, Global};

/// The digits of a decimal behind its point.
fn digits_behind(number: Dec) -> u32
    ensures { result ≡ digits_behind_point number }
{
    if number.exp < 0 {
        number.exp.unsigned_abs()
    } else {
        0
    }
}

/// The greatest number of digits that one of the entries has behind its point.
fn digits_of_entries(entries: &[Entry]) -> u32
    ensures { result ≡ most_digits (map (λ e. e.number) entries.now) }
{
    let mut digits = 0;
    for entry in entries {
        digits = digits.max(digits_behind(entry.number));
    }
    digits
}

/// The greatest number of digits that one of a row's decimals has behind its point.
pub(crate) fn digits_of_row(entries: &[Entry], rhs: Dec, range: Option<Dec>) -> u32
    ensures { result ≡ most_digits (decimals_of entries.now rhs range) }
{
    let digits = digits_of_entries(entries).max(digits_behind(rhs));
    match range {
        Some(number) => digits.max(digits_behind(number)),
        None => digits,
    }
}

/// Adds the term of an entry, 10^digits times as large, where the number isn't 0. Answers whether it fits: nothing is added
/// where it is wide.
fn push_term(digits: u32, entry: Entry, terms: &mut Vec<(u32, i128)>) -> Result<bool, AllocError>
    requires { IsScalable digits entry.number }
    ensures fits { IfOk result (λ fits. not fits ≡ has_wide_term (terms_by digits (entry ∷ []))) }
    ensures added { IfOk result (λ fits. fits ≡ true → terms.new.items ≡ terms.old.items ++ terms_by digits (entry ∷ [])) }
{
    if entry.number.mant == 0 {
        return Ok(true);
    }
    let Some(number) = scaled_number(digits, entry.number) else {
        return Ok(false);
    };
    terms.push((entry.column, number))?;
    Ok(true)
}

/// The terms of these entries, 10^digits times as large, and none where one is wide.
pub(crate) fn terms_of(
    alloc: Global,
    digits: u32,
    entries: &[Entry],
) -> Result<Option<SparseRow>, AllocError>
    requires scalable { AreScalable digits entries.now }
    requires rising { RiseFrom 0 entries.now }
    ensures { IfOk result (Unless (has_wide_term (terms_by digits entries.now)) (λ row. row ≡ terms_by digits entries.now)) }
{
    let mut terms = Vec::new(alloc);
    for entry in entries {
        let fits = push_term(digits, *entry, &mut terms)?;
        if !fits {
            return Ok(None);
        }
    }
    Ok(Some(SparseRow::from_vec(terms)))
}
