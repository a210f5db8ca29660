//! What was made of a basis's answer, in the words of a program's solution.
ghost use Rattle.std.specs.Prelude.{◌≡◌, IfErr};
ghost use Rattle.bz_event.specs.Failing.{IsNoBrokenTest};
ghost use Rattle.bz_floor.specs.Outcomes.{cut_answered, ray_answered, wide_sum};

use bz_cut::Cut;
use bz_event::FloorAnswer;
use bz_judge::{CUT_SUMS, CheckFault};
use bz_num::Items;
use bz_std::MakeStop;
use bz_tableau::{LpStop, WideAt};

/// A wide sum of what the basis makes: of its cut, or of its ray along a column.
fn wide_of(basis: Items<u32>, column: Option<u32>, list: u32, at: u32) -> LpStop
    ensures { result ≡ wide_sum basis column list at }
{
    LpStop::Wide(WideAt::Fold {
        relaxed: false,
        basis,
        column,
        list,
        at,
    })
}

/// The cut that was made, with its basis.
pub(crate) fn cut_answer(
    basis: Items<u32>,
    made: Result<Cut, MakeStop>,
) -> Result<FloorAnswer, LpStop>
    ensures { result ≡ cut_answered basis made }
{
    match made {
        Ok(cut) => Ok(FloorAnswer::Floor { basis, cut }),
        Err(MakeStop::Wide) => Err(wide_of(basis, None, CUT_SUMS, 0)),
        Err(MakeStop::OutOfMemory) => Err(LpStop::OutOfMemory),
    }
}

/// The direction that was made, or its wide sum with the basis and the column.
pub(crate) fn ray_answer(
    basis: Items<u32>,
    column: u32,
    made: Result<Items<i128>, CheckFault>,
) -> Result<FloorAnswer, LpStop>
    requires { IfErr made IsNoBrokenTest }
    ensures { result ≡ ray_answered basis column made }
{
    match made {
        Ok(d) => Ok(FloorAnswer::Ray { d }),
        Err(CheckFault::Wide { list, at }) => Err(wide_of(basis, Some(column), list, at)),
        Err(CheckFault::OutOfMemory) => Err(LpStop::OutOfMemory),
        Err(_) => unreachable!(),
    }
}
