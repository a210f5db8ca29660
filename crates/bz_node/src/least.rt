//! The answer of a node that has a least point.
ghost use Rattle.std.specs.Prelude.{◌≡◌, IfErr, IfOk, false};
ghost use Rattle.bz_tableau.specs.Answers.{IsLeast};
ghost use Rattle.bz_tableau.specs.Programs.{program_of};
ghost use Rattle.bz_node.specs.NodePrograms.{AnswersNode, IsNodeProgram, StopsProgram};

use crate::fractional::{first_fractional, rounded_down};
use crate::leaves::cost_leaf;
use crate::points::point_answer;
use crate::programs::{NodeProgram, leaf_stop, variables};
use bz_event::NodeAnswer;
use bz_num::Items;
use bz_std::differences;
use bz_tableau::{LpStop, Vals};
use std::alloc::Global;

/// The answer of a node whose program has the least point z, as the basis and its multipliers y show.
pub(crate) fn least_answer(
    alloc: Global,
    program: &NodeProgram<'_>,
    basis: Items<u32>,
    z: &Vals,
    y: &Vals,
) -> Result<NodeAnswer, LpStop>
    requires program { IsNodeProgram program.now }
    requires least { IsLeast false (program_of program.now.lp.now) basis z.now y.now }
    ensures answer { IfOk result (AnswersNode program.now) }
    ensures stop { IfErr result (StopsProgram program.now) }
{
    let leaf = match cost_leaf(alloc, program, y) {
        Ok(leaf) => leaf,
        Err(stop) => return Err(leaf_stop(stop, false, basis)),
    };
    let numbers = differences(alloc, z.num.as_slice(), variables(program.split))?;
    match first_fractional(program.positions, numbers.as_slice(), z.den) {
        Some(position) => {
            let number = numbers.as_slice()[position as usize];
            Ok(NodeAnswer::Split {
                basis,
                position,
                value: rounded_down(number, z.den),
                leaf,
            })
        },
        None => point_answer(alloc, program, basis, z, numbers, leaf),
    }
}
