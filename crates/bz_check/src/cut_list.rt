//! Whether the cuts of a certificate are valid.
ghost use Rattle.std.specs.Prelude.{◌≤◌, length};
ghost use Rattle.bz_first.specs.Tests.{Judges};
ghost use Rattle.bz_check.specs.CheckTests.{cuts_tests, numbered_cut_tests};

use bz_cut::{Cut, CutFault, judge_cut};
use bz_first::{ItemTests, judge_each};
use bz_judge::{CUT_SUMS, CheckFault, wide_in};
use bz_model::Split;

/// The tests of cuts by their numbers.
#[derive(Clone, Copy)]
struct Cuts<'a> {
    split: &'a Split,
}

impl ItemTests<Cut, CheckFault> for Cuts<'_> {
    ghost takes = { λ t e. Unit {0} };

    ghost tests = { λ t. numbered_cut_tests t.split.now.model t.split.now.part };

    fn judge(&self, i: u32, cut: &Cut) -> Result<(), CheckFault> {
        match judge_cut(self.split, cut) {
            Ok(()) => Ok(()),
            Err(CutFault::Invalid) => Err(CheckFault::Cut { i }),
            Err(CutFault::Wide) => Err(wide_in(CUT_SUMS, i)),
        }
    }
}

/// Tests all cuts.
pub fn judge_cuts(split: &Split, cuts: &[Cut]) -> Result<(), CheckFault>
    requires { length cuts.now ≤ 65535 }
    ensures { Judges (cuts_tests split.now.model split.now.part cuts.now) result }
{
    judge_each(cuts, 0, &Cuts { split })
}
