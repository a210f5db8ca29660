//! Whether a value is the master's inner cost with the etas, and the objective that it states is not wide.
ghost use Rattle.std.specs.Prelude.{◌≡◌, length};
ghost use Rattle.bz_num.specs.Fold.{fold_of};
ghost use Rattle.bz_model.specs.Parting.{blocks_of, inner_cost, terms_in, width_of};
ghost use Rattle.bz_first.specs.Tests.{Judges};
ghost use Rattle.bz_judge.specs.declared.faults.CheckFault.TheVariants.{Value};
ghost use Rattle.bz_judge.specs.ValueTests.{stated_tests, sum_tests, value_tests};
ghost use Rattle.bz_model.specs.PointSums.{value_pairs};

use crate::costs::begin_cost;
use crate::faults::{CheckFault, STATED_NUMBERS, VALUE_SUM, wide_in};
use bz_cut::{judge_fold, judge_product};
use bz_first::judge_equal;
use bz_model::{Master, Model, Split, numerator};
use bz_num::WideSum;

/// The master's inner cost with the etas, or its first wide place. It takes no memory.
pub fn value_sum(split: &Split, master: &Master) -> Result<i128, WideSum>
    requires x { length master.now.x ≡ width_of split.now.part 0 }
    requires eta { length master.now.eta ≡ blocks_of split.now.part }
    ensures { result ≡ fold_of (value_pairs (terms_in split.now.part 0 (inner_cost split.now.model)) master.now) }
{
    let mut folding = begin_cost(split, 0, master.x.as_slice())?;
    for eta in master.eta.as_slice() {
        folding.push(1, *eta)?;
    }
    Ok(folding.sum())
}

/// Tests that the value is the master's inner cost with the etas.
fn judge_sum_of_value(split: &Split, master: &Master, value: i128) -> Result<(), CheckFault>
    requires x { length master.now.x ≡ width_of split.now.part 0 }
    requires eta { length master.now.eta ≡ blocks_of split.now.part }
    ensures { Judges (sum_tests split.now.model split.now.part master.now value) result }
{
    let sum = judge_fold(value_sum(split, master), wide_in(VALUE_SUM, 0))?;
    judge_equal(value, sum, CheckFault::Value)
}

/// Tests that the objective which the value over the denominator states has no wide number.
fn judge_stated(model: &Model, value: i128, den: i128) -> Result<(), CheckFault>
    ensures { Judges (stated_tests model.now value den) result }
{
    judge_fold(numerator(model, value, den), wide_in(STATED_NUMBERS, 0))?;
    judge_product(model.scale, den, wide_in(STATED_NUMBERS, 1))?;
    Ok(())
}

/// Tests that the value is the master's inner cost with the etas, and that the objective which it states is not wide.
pub fn judge_value(split: &Split, master: &Master, value: i128) -> Result<(), CheckFault>
    requires x { length master.now.x ≡ width_of split.now.part 0 }
    requires eta { length master.now.eta ≡ blocks_of split.now.part }
    ensures { Judges (value_tests split.now.model split.now.part master.now value) result }
{
    judge_sum_of_value(split, master, value)?;
    judge_stated(split.model(), value, master.den)
}
