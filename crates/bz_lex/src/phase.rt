//! One phase of the lexicographic simplex.
ghost use Rattle.std.specs.Prelude.{◌≡◌, IfOk, IfErr, OnErr, MatchOption};
ghost use Rattle.bz_lex.specs.Phases.{IsOnPhase, IsPhasePivot, IsPhaseEnd, IsPhaseTable, IsPhaseStop, MeetsNoBasisTwice};

use crate::entering::entering;
use crate::leaving::leaving;
use bz_tableau::{LpStop, Tableau};
use std::alloc::Global;
use std::marker::Brand;
use std::sync::ledger::{Blank, Ledger};

/// What a phase comes to.
#[derive(Drop)]
pub enum PhaseEnd {
    /// No number of the objective row is negative.
    Least,
    /// The objective row is negative in the column, and no row is positive there.
    Falls { column: u32 },
}

// One turn of the phase that began at the basis `first`: its end, or else a pivot.
fn turn(alloc: Global, tableau: &mut Tableau, first: &[u32]) -> Result<Option<PhaseEnd>, LpStop>
    requires { IsOnPhase first.now tableau.old }
    ensures turned { IfOk result (λ end. MatchOption end
        (IsPhasePivot first.now tableau.old tableau.new)
        (λ end. (tableau.new ≡ tableau.old) × IsPhaseEnd tableau.old end)) }
    ensures stopped { IfErr result (λ stop. IsPhaseStop tableau.old stop) }
    ensures unchanged { OnErr result (tableau.new ≡ tableau.old) }
{
    let Some(column) = entering(tableau) else {
        return Ok(Some(PhaseEnd::Least));
    };
    let Some(row) = leaving(tableau, first, column) else {
        return Ok(Some(PhaseEnd::Falls { column }));
    };
    tableau.pivot(alloc, row, column)?;
    Ok(None)
}

// Turns until the end. No basis comes twice, so the ledger counts to less than 2 to the number of columns.
fn turns<L: Ledger>(
    alloc: Global,
    tableau: &mut Tableau,
    first: &[u32],
    blank: Blank,
) -> Result<PhaseEnd, LpStop>
    requires name { blank.name ≡ L.name }
    requires parts { blank.parts ≡ L.parts }
    requires part { L.parts ≡ 1 }
    requires first { first.now ≡ tableau.old.basis }
    requires phase { IsOnPhase first.now tableau.old }
    ensures table { IsPhaseTable tableau.old tableau.new }
    ensures once { MeetsNoBasisTwice tableau.old tableau.new }
    ensures end { IfOk result (λ end. IsPhaseEnd tableau.new end) }
    ensures stopped { IfErr result (λ stop. IsPhaseStop tableau.old stop) }
{
    let (mut met, mut share) = blank.open::<L>();
    loop {
        if let Some(end) = turn(alloc, tableau, first)? {
            return Ok(end);
        }
        met.add(&mut share, 1);
    }
}

/// Pivots from a tableau with a point, where a phase may begin, by the lexicographic rule, until no column enters or the
/// objective row falls freely in one. No basis is met twice. It is refused where a pivot is, and by want of memory; the
/// tableau is then the last one met.
pub fn run_phase(alloc: Global, tableau: &mut Tableau) -> Result<PhaseEnd, LpStop>
    requires { IsOnPhase tableau.old.basis tableau.old }
    ensures table { IsPhaseTable tableau.old tableau.new }
    ensures once { MeetsNoBasisTwice tableau.old tableau.new }
    ensures end { IfOk result (λ end. IsPhaseEnd tableau.new end) }
    ensures stopped { IfErr result (λ stop. IsPhaseStop tableau.old stop) }
{
    let first = Vec::from_slice(alloc, tableau.basis())?;
    turns::<Brand>(alloc, tableau, first.as_slice(), Blank::new(1))
}
