//! The inequalities that rows and bounds give.
ghost use Rattle.std.specs.Prelude.{◌≡◌, ◌<◌, ◌==◌, [], if◌then◌else◌, IfOk, length};
ghost use Rattle.std.proofs.Math.IntN.{neg_ℤ};
ghost use Rattle.std.specs.Option.{ForSome};
ghost use Rattle.bz_algebra.specs.Numbers.{IsNarrow};
ghost use Rattle.bz_algebra.specs.Sums.{AllBelow};
ghost use Rattle.bz_model.specs.Parting.{at_most, lower_side, terms_in, turned, upper_side};
ghost use Rattle.bz_model.specs.PartLists.{ArePositions, Gains};

use crate::growing::{Growing, push_at};
use crate::records::Ineq;
use bz_num::{SparseRow, narrow_negation};
use std::alloc::{AllocError, Global};

/// The number, the other way round where it is negated.
pub fn signed(negate: bool, number: i128) -> i128
    requires { IsNarrow number }
    ensures value { result ≡ (if negate then neg_ℤ number else number) }
    ensures narrow { IsNarrow result }
{
    if negate {
        narrow_negation(number)
    } else {
        number
    }
}

/// The terms that stand in part `b`, by position, each number the other way round where they are negated.
pub fn pick_terms(
    alloc: Global,
    part: &[u32],
    positions: &[u32],
    b: u32,
    terms: &SparseRow,
    negate: bool,
) -> Result<SparseRow, AllocError>
    requires columns { AllBelow (length part.now) terms.now }
    requires places { ArePositions part.now positions.now }
    ensures { IfOk result (λ row. row ≡ terms_in part.now b (turned negate terms.now)) }
{
    let mut entries = Vec::new(alloc);
    for entry in terms.as_slice() {
        let column = entry.0 as usize;
        if part[column] == b {
            entries.push((positions[column], signed(negate, entry.1)))?;
        }
    }
    Ok(SparseRow::from_vec(entries))
}

/// The master's terms, where `b` is a block, and none where it is the master.
pub fn pick_beside(
    alloc: Global,
    part: &[u32],
    positions: &[u32],
    b: u32,
    terms: &SparseRow,
    negate: bool,
) -> Result<SparseRow, AllocError>
    requires columns { AllBelow (length part.now) terms.now }
    requires places { ArePositions part.now positions.now }
    ensures { IfOk result (λ row. row ≡ (if b == 0 then [] else terms_in part.now 0 (turned negate terms.now))) }
{
    if b == 0 {
        return Ok(SparseRow::from_vec(Vec::new(alloc)));
    }
    pick_terms(alloc, part, positions, 0, terms, negate)
}

/// `terms <= rhs` as an inequality of part `b`, the terms the other way round where they are negated.
pub fn side(
    alloc: Global,
    part: &[u32],
    positions: &[u32],
    b: u32,
    terms: &SparseRow,
    negate: bool,
    rhs: i128,
) -> Result<Ineq, AllocError>
    requires columns { AllBelow (length part.now) terms.now }
    requires places { ArePositions part.now positions.now }
    ensures { IfOk result (λ side. side ≡ at_most part.now b (turned negate terms.now) rhs) }
{
    let own = pick_terms(alloc, part, positions, b, terms, negate)?;
    let master = pick_beside(alloc, part, positions, b, terms, negate)?;
    Ok(Ineq { own, master, rhs })
}

/// Adds the upper side of terms to the list of part `b`, where there is one.
pub fn push_upper(
    alloc: Global,
    part: &[u32],
    positions: &[u32],
    b: u32,
    terms: &SparseRow,
    upper: Option<i128>,
    lists: &mut Vec<Growing<Ineq>>,
) -> Result<(), AllocError>
    requires columns { AllBelow (length part.now) terms.now }
    requires places { ArePositions part.now positions.now }
    requires room { b < length lists.old.items }
    ensures { IfOk result (λ _. Gains lists.old.items lists.new.items b (upper_side part.now b terms.now upper)) }
{
    match upper {
        Some(rhs) => {
            let side = side(alloc, part, positions, b, terms, false, rhs)?;
            push_at(lists, b as usize, side)
        },
        None => Ok(()),
    }
}

/// Adds the lower side of terms to the list of part `b`, where there is one.
pub fn push_lower(
    alloc: Global,
    part: &[u32],
    positions: &[u32],
    b: u32,
    terms: &SparseRow,
    lower: Option<i128>,
    lists: &mut Vec<Growing<Ineq>>,
) -> Result<(), AllocError>
    requires columns { AllBelow (length part.now) terms.now }
    requires places { ArePositions part.now positions.now }
    requires narrow { ForSome lower IsNarrow }
    requires room { b < length lists.old.items }
    ensures { IfOk result (λ _. Gains lists.old.items lists.new.items b (lower_side part.now b terms.now lower)) }
{
    match lower {
        Some(rhs) => {
            let side = side(alloc, part, positions, b, terms, true, narrow_negation(rhs))?;
            push_at(lists, b as usize, side)
        },
        None => Ok(()),
    }
}
