//! What the leaves of a tree are to show.
ghost use Rattle.std.specs.Prelude.{◌≡◌, ◌*ℤ◌, ◌≤ℤ◌, ◌<ℤ◌, ◌∷◌, ◌↔◌, [], pos, IsTrue};
ghost use Rattle.bz_first.specs.Tests.{Judges, test};
ghost use Rattle.bz_judge.specs.declared.CheckFault.TheVariants as fault;
ghost use Rattle.bz_check.specs.TreeGoals.{HasPositiveDen, bounds_of};

use bz_first::judge;
use bz_judge::CheckFault;
use bz_num::cmp_quotients;
use bz_tree::Leaf;

/// What each leaf of a tree is to show.
#[derive(Clone, Copy, Debug, PartialEq, Eq)]
pub enum Goal {
    /// It is empty, or its bound is no less than `value / den`.
    Reaches { value: i128, den: i128 },
    /// It is empty.
    Empty,
}

/// Whether `value / den` is at most `bound / delta`. No product is formed.
fn is_at_most(value: i128, den: i128, bound: i128, delta: i128) -> bool
    requires den { pos 0 <ℤ den }
    requires delta { pos 0 <ℤ delta }
    ensures { IsTrue result ↔ ((value *ℤ delta) ≤ℤ (bound *ℤ den)) }
{
    cmp_quotients(value, den, bound, delta).is_le()
}

/// Whether a leaf that is not empty has a bound that is no less than `value / den`.
fn reaches(leaf: &Leaf, value: i128, den: i128) -> bool
    requires { pos 0 <ℤ den }
    ensures { IsTrue result ↔ (pos 0 <ℤ leaf.now.delta → (value *ℤ leaf.now.delta) ≤ℤ (leaf.now.bound *ℤ den)) }
{
    if leaf.delta <= 0 {
        return true;
    }
    is_at_most(value, den, leaf.bound, leaf.delta)
}

/// Whether the leaf shows what it is to show.
fn shows(leaf: &Leaf, goal: Goal) -> bool
    requires { HasPositiveDen goal }
    ensures { IsTrue result ↔ bounds_of goal leaf.now }
{
    match goal {
        Goal::Reaches { value, den } => reaches(leaf, value, den),
        Goal::Empty => leaf.delta == 0,
    }
}

/// Tests that the leaf at the node shows what it is to show.
pub fn judge_goal(goal: Goal, node: u32, leaf: &Leaf) -> Result<(), CheckFault>
    requires { HasPositiveDen goal }
    ensures { Judges (test (fault.Leaf node) (bounds_of goal leaf.now) ∷ []) result }
{
    judge(shows(leaf, goal), CheckFault::Leaf { node })
}
