//! What was made of a basis's answer, in the words of a program's solution.
ghost use Rattle.std.specs.Prelude.{◌≡◌, IfErr};
ghost use Rattle.bz_event.specs.Failing.{IsNoBrokenTest};
ghost use Rattle.bz_event.specs.Stops.{IsNoProgram};
ghost use Rattle.bz_sep.specs.Outcomes.{cut_answered, fill_answered, unbuilt, wide_sum};

use bz_cut::Cut;
use bz_event::SepAnswer;
use bz_judge::{CUT_SUMS, CheckFault};
use bz_model::BlockPart;
use bz_num::{Items, SparseRow};
use bz_std::{BuildStop, MakeStop};
use bz_tableau::{Lp, LpStop, WideAt};
use std::alloc::Global;

/// A program without rows, columns and cost. It takes no memory.
pub(crate) fn no_program(alloc: Global) -> Lp
    ensures { IsNoProgram result }
{
    Lp {
        columns: 0,
        rows: Items::from_vec(Vec::new(alloc)),
        cost: SparseRow::from_vec(Vec::new(alloc)),
    }
}

/// Why there is no program.
pub(crate) fn unbuilt_program(stop: BuildStop) -> LpStop
    ensures { result ≡ unbuilt stop }
{
    match stop {
        BuildStop::Wide(at) => LpStop::Wide(at),
        BuildStop::OutOfMemory => LpStop::OutOfMemory,
    }
}

/// A wide sum of what the basis of a relaxed program makes.
fn wide_of(basis: Items<u32>, list: u32, at: u32) -> LpStop
    ensures { result ≡ wide_sum basis list at }
{
    LpStop::Wide(WideAt::Fold {
        relaxed: true,
        basis,
        column: None,
        list,
        at,
    })
}

/// The cut that was made, with its basis.
pub(crate) fn cut_answer(
    basis: Items<u32>,
    made: Result<Cut, MakeStop>,
) -> Result<SepAnswer, LpStop>
    ensures { result ≡ cut_answered basis made }
{
    match made {
        Ok(cut) => Ok(SepAnswer::Cut { basis, cut }),
        Err(MakeStop::Wide) => Err(wide_of(basis, CUT_SUMS, 0)),
        Err(MakeStop::OutOfMemory) => Err(LpStop::OutOfMemory),
    }
}

/// The fill that was made, or its wide sum with the basis.
pub(crate) fn fill_answer(
    basis: Items<u32>,
    filled: Result<BlockPart, CheckFault>,
) -> Result<SepAnswer, LpStop>
    requires { IfErr filled IsNoBrokenTest }
    ensures { result ≡ fill_answered basis filled }
{
    match filled {
        Ok(y) => Ok(SepAnswer::Fill { y }),
        Err(CheckFault::Wide { list, at }) => Err(wide_of(basis, list, at)),
        Err(CheckFault::OutOfMemory) => Err(LpStop::OutOfMemory),
        Err(_) => unreachable!(),
    }
}
