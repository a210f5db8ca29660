//! The point of a node whose integer columns are whole.
ghost use Rattle.std.specs.Prelude.{◌≡◌, ◌+◌, ◌≤◌, ◌++◌, pos, ◌<ℤ◌, IfErr, IfOk, length};
ghost use Rattle.bz_algebra.specs.Numbers.{IsNarrow};
ghost use Rattle.bz_num.specs.Dense.{AreNarrow, entry};
ghost use Rattle.bz_model.specs.Parting.{blocks_of, width_of};
ghost use Rattle.bz_std.specs.Meanings.{differences};
ghost use Rattle.bz_std.specs.NumberLists.{HasNumbers};
ghost use Rattle.bz_node.specs.NodePrograms.{AnswersNode, IsNodeProgram, mode_of, model_of, part_of, variables_of};
ghost use Rattle.bz_node.specs.PointSteps.{IsPointOf, IsWholePoint, StopsPoint};

use crate::programs::{NodeProgram, wide_sum_stop};
use crate::sums::wide_sum;
use bz_event::NodeAnswer;
use bz_model::{Master, Split};
use bz_num::{Items, OutOfMemory};
use bz_std::lowest;
use bz_tableau::{LpStop, Vals};
use bz_tree::Leaf;
use std::alloc::Global;

/// The first `width` numbers of the list, and the others.
fn parted(
    alloc: Global,
    numbers: &[i128],
    width: usize,
) -> Result<(Items<i128>, Items<i128>), OutOfMemory>
    requires { width ≤ length numbers.now }
    ensures whole { IfOk result (λ lists. lists.0 ++ lists.1 ≡ numbers.now) }
    ensures width { IfOk result (λ lists. length lists.0 ≡ width) }
{
    let (front, rest) = numbers.split_at(width);
    let front = Vec::from_slice(alloc, front)?;
    let rest = Vec::from_slice(alloc, rest)?;
    Ok((Items::from_vec(front), Items::from_vec(rest)))
}

/// The point of the numbers over the denominator, in lowest form: those of the master's positions, and then the etas.
fn point_of(
    alloc: Global,
    split: &Split,
    numbers: Vec<i128>,
    den: i128,
) -> Result<Master, OutOfMemory>
    requires count { length numbers.items ≡ width_of split.now.part 0 + blocks_of split.now.part }
    requires narrow { AreNarrow numbers.items }
    requires den_narrow { IsNarrow den }
    requires positive { pos 0 <ℤ den }
    ensures { IfOk result (IsPointOf split.now.part den (entry numbers.items)) }
{
    let (low, values) = lowest(numbers, den);
    let (x, eta) = parted(alloc, values.as_slice(), split.width(0) as usize)?;
    Ok(Master { den: low, x, eta })
}

/// The answer of a node at whose least point z each integer column is whole; its variables have these numbers. Where a
/// sum of the point is wide there is none.
pub(crate) fn point_answer(
    alloc: Global,
    program: &NodeProgram<'_>,
    basis: Items<u32>,
    z: &Vals,
    numbers: Items<i128>,
    leaf: Option<Leaf>,
) -> Result<NodeAnswer, LpStop>
    requires program { IsNodeProgram program.now }
    requires numbers { HasNumbers (variables_of program.now) (differences (entry z.now.num)) numbers }
    requires point { IsWholePoint program.now z.now leaf }
    ensures answer { IfOk result (AnswersNode program.now) }
    ensures stop { IfErr result
        (StopsPoint (model_of program.now) (part_of program.now) (mode_of program.now) z.now basis) }
{
    let point = point_of(alloc, program.split, numbers.into_vec(), z.den)?;
    match wide_sum(program.split, program.task.mode, &point) {
        None => Ok(NodeAnswer::Point { point, leaf }),
        Some((list, at)) => Err(wide_sum_stop(false, basis, list, at)),
    }
}
