//! Whether a cut is valid, with no sum or product wide that tells so.
ghost use Rattle.std.specs.Prelude.{◌≡◌, ◌↔◌, ◌<◌, ◌≤◌, ◌*ℤ◌, IsTrue};
ghost use Rattle.bz_model.specs.Parting.{blocks_of, width_of};
ghost use Rattle.bz_cut.specs.CutTests.{HasPlaces, cut_tests, form_tests, master_equations, master_tests, own_equations, own_tests, rhs_tests, sum_tests};
ghost use Rattle.bz_cut.specs.Fits.{IsValidAndFits};
ghost use Rattle.bz_first.specs.Tests.{Judges};

use crate::faults::CutFault;
use crate::judging::{judge_equation, judge_opposite, judge_product};
use crate::lists::are_multipliers;
use crate::records::Cut;
use crate::sums::{position_sum, rhs_sum};
use bz_first::{PlaceTests, judge_below};
use bz_model::{Split, Terms};

/// Whether the block is one of the split's.
fn has_block(split: &Split, cut: &Cut) -> bool
    ensures { IsTrue result ↔ ((0 < cut.now.block) × (cut.now.block ≤ blocks_of split.now.part)) }
{
    0 < cut.block && cut.block <= split.blocks()
}

/// Tests the block, the lists and the signs.
fn judge_form(split: &Split, cut: &Cut) -> Result<(), CutFault>
    ensures { Judges (form_tests split.now.model split.now.part cut.now) result }
{
    if !has_block(split, cut) {
        return Err(CutFault::Invalid);
    }
    if !split.has_positions(0, &cut.alpha) {
        return Err(CutFault::Invalid);
    }
    if !are_multipliers(&cut.mu, split.inequalities(cut.block).len()) {
        return Err(CutFault::Invalid);
    }
    if cut.gcd <= 0 {
        return Err(CutFault::Invalid);
    }
    if cut.p0 < 0 {
        return Err(CutFault::Invalid);
    }
    Ok(())
}

/// The equations of a cut on the positions of its block.
#[derive(Clone, Copy)]
struct OwnEquations<'a> {
    split: &'a Split,
    cut: &'a Cut,
    /// The cut's `gcd` times its `p0`.
    factor: i128,
}

impl PlaceTests<CutFault> for OwnEquations<'_> {
    ghost takes = { λ e position.
        HasPlaces e.split.now.model e.split.now.part e.cut.now
        × (e.factor ≡ e.cut.now.gcd *ℤ e.cut.now.p0)
        × (position < width_of e.split.now.part e.cut.now.block) };

    ghost tests = { λ e. own_tests e.split.now.model e.split.now.part e.cut.now };

    fn judge_at(&self, position: u32) -> Result<(), CutFault> {
        let cut = self.cut;
        let sum = position_sum(self.split, cut.block, &cut.mu, Terms::Own, position);
        let cost = self.split.inner_cost(cut.block, position);
        judge_opposite(sum, self.factor, cost, CutFault::Invalid, CutFault::Wide)
    }
}

/// Tests the equations on the block's positions, where `factor` is `gcd p0`.
fn judge_own(split: &Split, cut: &Cut, factor: i128) -> Result<(), CutFault>
    requires places { HasPlaces split.now.model split.now.part cut.now }
    requires factor { factor ≡ cut.now.gcd *ℤ cut.now.p0 }
    ensures { Judges (own_equations split.now.model split.now.part cut.now) result }
{
    let equations = OwnEquations { split, cut, factor };
    judge_below(split.width(cut.block), &equations)
}

/// The equations of a cut on the positions of the master.
#[derive(Clone, Copy)]
struct MasterEquations<'a> {
    split: &'a Split,
    cut: &'a Cut,
}

impl PlaceTests<CutFault> for MasterEquations<'_> {
    ghost takes = { λ e position.
        HasPlaces e.split.now.model e.split.now.part e.cut.now × (position < width_of e.split.now.part 0) };

    ghost tests = { λ e. master_tests e.split.now.model e.split.now.part e.cut.now };

    fn judge_at(&self, position: u32) -> Result<(), CutFault> {
        let cut = self.cut;
        let sum = position_sum(self.split, cut.block, &cut.mu, Terms::Master, position);
        let number = cut.alpha.at(position);
        judge_equation(sum, cut.gcd, number, CutFault::Invalid, CutFault::Wide)
    }
}

/// Tests the equations on the master's positions.
fn judge_master(split: &Split, cut: &Cut) -> Result<(), CutFault>
    requires { HasPlaces split.now.model split.now.part cut.now }
    ensures { Judges (master_equations split.now.model split.now.part cut.now) result }
{
    judge_below(split.width(0), &MasterEquations { split, cut })
}

/// Tests the equation of the right sides.
fn judge_rhs(split: &Split, cut: &Cut) -> Result<(), CutFault>
    requires { HasPlaces split.now.model split.now.part cut.now }
    ensures { Judges (rhs_tests split.now.model split.now.part cut.now) result }
{
    let sum = rhs_sum(&cut.mu, split.inequalities(cut.block));
    judge_equation(sum, cut.gcd, cut.beta, CutFault::Invalid, CutFault::Wide)
}

/// Tests the factor and the equations.
fn judge_equations(split: &Split, cut: &Cut) -> Result<(), CutFault>
    requires { HasPlaces split.now.model split.now.part cut.now }
    ensures { Judges (sum_tests split.now.model split.now.part cut.now) result }
{
    let factor = judge_product(cut.gcd, cut.p0, CutFault::Wide)?;
    judge_own(split, cut, factor)?;
    judge_master(split, cut)?;
    judge_rhs(split, cut)
}

/// The first fault of the cut: `Invalid` where it is not valid, and `Wide` where a sum or a product that would tell is
/// wide. It takes no memory.
pub fn judge_cut(split: &Split, cut: &Cut) -> Result<(), CutFault>
    ensures { Judges (cut_tests split.now.model split.now.part cut.now) result }
{
    judge_form(split, cut)?;
    judge_equations(split, cut)
}

/// Whether the cut is valid, and no sum or product is wide that tells so. It takes no memory.
pub fn fits_and_valid(split: &Split, cut: &Cut) -> bool
    ensures { IsTrue result ↔ IsValidAndFits split.now.model split.now.part cut.now }
{
    judge_cut(split, cut).is_ok()
}
