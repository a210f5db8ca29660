//! Whether integer columns are whole at the master's point, and within the box of the whole model.
ghost use Rattle.std.specs.Prelude.{◌≡◌, ◌+◌, ◌<◌, ◌^◌, pos, ◌<ℤ◌, length};
ghost use Rattle.bz_model.specs.Parting.{width_of};
ghost use Rattle.bz_first.specs.Tests.{Judges};
ghost use Rattle.bz_tree.specs.Boxes.{IsRootBox};
ghost use Rattle.bz_tree.specs.Ends.{box_of};
ghost use Rattle.bz_tree.specs.Integers.{positions_of};
ghost use Rattle.bz_judge.specs.PointTests.{integers_tests, position_tests};
ghost use Rattle.bz_judge.specs.IntegerTests.{IsIntegerOf, IsWholeQuotient, between_tests};

use crate::faults::CheckFault;
use bz_first::{ItemTests, judge_each};
use bz_model::{Master, Split};
use bz_num::divide;
use bz_tree::NodeBox;

/// The quotient, where it is whole.
fn whole_quotient(num: i128, den: i128) -> Option<i128>
    requires { pos 0 <ℤ den }
    ensures { IsWholeQuotient num den result }
{
    let (quotient, rest) = divide(num, den);
    if rest != 0 {
        return None;
    }
    Some(quotient)
}

/// Tests that x / den is whole and between the ends. The place of its upper side is `at`.
fn judge_between(x: i128, den: i128, lower: i128, upper: i128, at: u32) -> Result<(), CheckFault>
    requires positive { pos 0 <ℤ den }
    requires place { at + 1 < 2 ^ 32 }
    ensures { Judges (between_tests at x den lower upper) result }
{
    let Some(quotient) = whole_quotient(x, den) else {
        return Err(CheckFault::Point { part: 0, at });
    };
    if quotient > upper {
        return Err(CheckFault::Point { part: 0, at });
    }
    if quotient < lower {
        return Err(CheckFault::Point {
            part: 0,
            at: at + 1,
        });
    }
    Ok(())
}

/// The tests of integer columns by their positions in the master.
#[derive(Clone, Copy)]
struct Integers<'a> {
    master: &'a Master,
    root: &'a NodeBox,
    /// How many inequalities stand before the sides of the box.
    sides: u32,
}

impl ItemTests<u32, CheckFault> for Integers<'_> {
    ghost takes = { λ t. IsIntegerOf t.master.now (box_of t.root.now) t.sides };

    ghost tests = { λ t. position_tests (box_of t.root.now) t.master.now t.sides };

    fn judge(&self, k: u32, position: &u32) -> Result<(), CheckFault> {
        let x = self.master.x.as_slice()[*position as usize];
        let lower = self.root.lower.as_slice()[k as usize];
        let upper = self.root.upper.as_slice()[k as usize];
        judge_between(x, self.master.den, lower, upper, self.sides + 2 * k)
    }
}

/// Tests all integer columns, whose positions in the master are given in file order.
pub fn judge_integers(
    split: &Split,
    master: &Master,
    root: &NodeBox,
    positions: &[u32],
) -> Result<(), CheckFault>
    requires positive { pos 0 <ℤ master.now.den }
    requires x { length master.now.x ≡ width_of split.now.part 0 }
    requires root { IsRootBox split.now.model (box_of root.now) }
    requires positions { positions.now ≡ positions_of split.now.model split.now.part }
    ensures { Judges (integers_tests split.now.model split.now.part (box_of root.now) master.now) result }
{
    let sides = split.inequalities(0).len() as u32;
    let tests = Integers {
        master,
        root,
        sides,
    };
    judge_each(positions, 0, &tests)
}
