//! The cut that an answer of a block's program makes.
ghost use Rattle.std.specs.Prelude.{◌≡◌, ◌<◌, ◌≤◌, ◌+◌, pos, ◌≤ℤ◌, IfErr, IfOk, length};
ghost use Rattle.bz_algebra.specs.Numbers.{IsNarrow};
ghost use Rattle.bz_num.specs.Dense.{AreNarrow, entry};
ghost use Rattle.bz_model.specs.Parting.{blocks_of, inequalities_of};
ghost use Rattle.bz_cut.specs.Rows.{AreMultipliers};
ghost use Rattle.bz_std.specs.CutsFrom.{IsCutFrom, IsNoCut};
ghost use Rattle.bz_std.specs.Making.{AreBlockMultipliers, AreNarrowBelow, AreRawNumbers, HasNarrowCutSums, HasNarrowSums};
ghost use Rattle.bz_std.specs.Making.{HasSome, IsCutOfNumbers, StopsCut, StopsSums, WideCutsDoNotFit, master_sum};
ghost use Rattle.bz_std.specs.NumberLists.{HasNumbers};

use crate::making::MakeStop;
use crate::multipliers::entries_of;
use crate::reduction::divided_by;
use crate::variables::push_number;
use bz_cut::{Cut, Terms, column_sum, rhs_sum};
use bz_model::{Ineq, Split};
use bz_num::{OutOfMemory, SparseRow, common_divisor};
use std::alloc::Global;

/// What the inequalities say of each position of the master, each times its multiplier.
fn master_sums(
    alloc: Global,
    mu: &SparseRow,
    rows: &[Ineq],
    width: u32,
) -> Result<Vec<i128>, MakeStop>
    requires { AreMultipliers (length rows.now) mu.now }
    ensures numbers { IfOk result (λ sums. HasNumbers width (master_sum mu.now rows.now) sums.items) }
    ensures narrow { IfOk result (λ _. AreNarrowBelow width rows.now mu.now) }
    ensures stop { IfErr result (StopsSums width rows.now mu.now) }
{
    let mut sums = Vec::new(alloc);
    for position in 0..width {
        let sum = column_sum(mu, rows, Terms::Master, position)?;
        push_number(&mut sums, sum)?;
    }
    Ok(sums)
}

/// The numbers of a cut before their division: those of the master's positions, then `raw` at the eta, then the right
/// side.
fn raw_numbers(
    alloc: Global,
    mu: &SparseRow,
    rows: &[Ineq],
    width: u32,
    raw: i128,
) -> Result<Vec<i128>, MakeStop>
    requires multipliers { AreMultipliers (length rows.now) mu.now }
    requires narrow { IsNarrow raw }
    ensures numbers { IfOk result (λ numbers. AreRawNumbers width rows.now mu.now raw numbers.items) }
    ensures narrow { IfOk result (λ _. HasNarrowSums width rows.now mu.now) }
    ensures stop { IfErr result (StopsSums width rows.now mu.now) }
{
    let mut numbers = master_sums(alloc, mu, rows, width)?;
    let rhs = rhs_sum(mu, rows)?;
    push_number(&mut numbers, raw)?;
    push_number(&mut numbers, rhs)?;
    Ok(numbers)
}

/// The cut of these numbers, divided by their greatest common divisor.
fn divided_cut(
    alloc: Global,
    block: u32,
    mu: SparseRow,
    numbers: Vec<i128>,
    width: u32,
) -> Result<Cut, OutOfMemory>
    requires count { length numbers.items ≡ width + 2 }
    requires narrow { AreNarrow numbers.items }
    requires some { HasSome numbers.items }
    ensures block { IfOk result (λ cut. cut.block ≡ block) }
    ensures multipliers { IfOk result (λ cut. cut.mu ≡ mu) }
    ensures numbers { IfOk result (IsCutOfNumbers width numbers.items) }
{
    let gcd = common_divisor(numbers.as_slice());
    let divided = divided_by(numbers, gcd);
    let lowest = divided.as_slice();
    Ok(Cut {
        block,
        mu,
        gcd,
        alpha: entries_of(alloc, lowest, width)?,
        p0: lowest[width as usize],
        beta: lowest[width as usize + 1],
    })
}

/// The cut of a block that the multipliers y of its inequalities make, with `raw` at its eta: the y-sum of what the
/// inequalities say of the master and of their right sides, divided by the greatest common divisor of all its numbers.
/// Where one of these sums is wide there is none.
pub fn made_cut(
    alloc: Global,
    split: &Split,
    block: u32,
    y: &[i128],
    raw: i128,
) -> Result<Cut, MakeStop>
    requires last { block ≤ blocks_of split.now.part }
    requires inside { length (inequalities_of split.now.model split.now.part block) ≤ length y.now }
    requires multipliers { AreBlockMultipliers split.now.model split.now.part block (entry y.now) }
    requires nonnegative { pos 0 ≤ℤ raw }
    requires some { IsNoCut split.now.model split.now.part block (entry y.now) raw → ⊥ }
    ensures cut { IfOk result (IsCutFrom split.now.model split.now.part block (entry y.now) raw) }
    ensures narrow { IfOk result (λ cut. HasNarrowCutSums split.now.model split.now.part block cut.mu) }
    ensures stop { IfErr result (StopsCut split.now.model split.now.part block (entry y.now)) }
{
    let rows = split.inequalities(block);
    let width = split.width(0);
    let mu = entries_of(alloc, y, rows.len() as u32)?;
    let numbers = raw_numbers(alloc, &mu, rows, width, raw)?;
    Ok(divided_cut(alloc, block, mu, numbers, width)?)
}

/// No cut fits with multipliers for which one of these sums is wide.
pub fn wide_cuts_do_not_fit()
    ensures { WideCutsDoNotFit }
{}
