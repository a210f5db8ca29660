//! The sums of a point of the master that meets its node.
ghost use Rattle.std.specs.Prelude.{◌≡◌};
ghost use Rattle.std.specs.List.{AllByRecursion};
ghost use Rattle.bz_first.specs.Tests.{Judges};
ghost use Rattle.bz_model.specs.Parting.{inequalities_of};
ghost use Rattle.bz_model.specs.PartPoints.{HoldsInMaster};
ghost use Rattle.bz_judge.specs.declared.faults.CheckFault.TheVariants.{Wide};
ghost use Rattle.bz_std.specs.Tasks.{IsMasterOf};
ghost use Rattle.bz_event.specs.Failing.{IsWideFault};
ghost use Rattle.bz_event.specs.Stops.{master_tests};
ghost use Rattle.bz_node.specs.PointSteps.{FindsWideSum, own_value_tests};

use bz_cut::{Mode, judge_fold};
use bz_judge::{CheckFault, VALUE_SUM, judge_master_rows, judge_value, value_sum, wide_in};
use bz_model::{Master, Split};

/// Tests that no sum is wide of the point's value and of the objective that it states.
fn judge_own_value(split: &Split, point: &Master) -> Result<(), CheckFault>
    requires { IsMasterOf split.now.part point.now }
    ensures { Judges (own_value_tests split.now.model split.now.part point.now) result }
{
    let value = judge_fold(value_sum(split, point), wide_in(VALUE_SUM, 0))?;
    judge_value(split, point, value)
}

/// Tests the master's inequalities at the point, and in mode Cost its value.
fn judge_sums(split: &Split, mode: Mode, point: &Master) -> Result<(), CheckFault>
    requires { IsMasterOf split.now.part point.now }
    ensures { Judges (master_tests split.now.model split.now.part mode point.now) result }
{
    judge_master_rows(point, split.inequalities(0))?;
    match mode {
        Mode::Cost => judge_own_value(split, point),
        Mode::Point => Ok(()),
    }
}

/// The list and the place there of the sum that a fault names.
fn wide_place(fault: CheckFault) -> (u32, u32)
    requires { IsWideFault fault }
    ensures { fault ≡ Wide result.0 result.1 }
{
    match fault {
        CheckFault::Wide { list, at } => (list, at),
        _ => unreachable!(),
    }
}

/// The first wide sum of a point at which the master's inequalities hold: the number of its list, and its place there.
pub(crate) fn wide_sum(split: &Split, mode: Mode, point: &Master) -> Option<(u32, u32)>
    requires shape { IsMasterOf split.now.part point.now }
    requires holds { AllByRecursion (HoldsInMaster point.now) (inequalities_of split.now.model split.now.part 0) }
    ensures { FindsWideSum split.now.model split.now.part mode point.now result }
{
    match judge_sums(split, mode, point) {
        Ok(()) => None,
        Err(fault) => Some(wide_place(fault)),
    }
}
