//! What a task comes to, with what it is an answer of.
ghost use Rattle.std.specs.Prelude.{◌≡◌};
ghost use Rattle.bz_event.specs.Carried.{carried};

use crate::answers::{Solved, TaskStop};
use crate::tasks::TaskName;
use bz_model::Master;
use bz_tableau::{Lp, LpStop};
use std::alloc::AllocError;

/// What was found of a task, with the task, its point and its program: the answer, or the wide place. Of want of memory
/// nothing is carried.
pub fn carry<A>(
    task: TaskName,
    point: Option<Master>,
    lp: Lp,
    found: Result<A, LpStop>,
) -> Result<Solved<A>, TaskStop>
    ensures { result ≡ carried task point lp found }
{
    match found {
        Ok(answer) => Ok(Solved {
            task,
            point,
            lp,
            answer,
        }),
        Err(LpStop::Wide(at)) => Err(TaskStop::Wide(Solved {
            task,
            point,
            lp,
            answer: at,
        })),
        Err(LpStop::OutOfMemory) => Err(TaskStop::OutOfMemory),
    }
}

impl From<bz_num::OutOfMemory> for TaskStop {
    ghost use Rattle.std.specs.Prelude.{◌≡◌};
    ghost use Rattle.bz_event.specs.declared.answers.TaskStop.TheVariants as stop;

    ghost from_gives = { λ _ e. e ≡ stop.OutOfMemory };

    fn from(_error: bz_num::OutOfMemory) -> TaskStop {
        TaskStop::OutOfMemory
    }
}

impl From<AllocError> for TaskStop {
    ghost use Rattle.std.specs.Prelude.{◌≡◌};
    ghost use Rattle.bz_event.specs.declared.answers.TaskStop.TheVariants as stop;

    ghost from_gives = { λ _ e. e ≡ stop.OutOfMemory };

    fn from(_error: AllocError) -> TaskStop {
        TaskStop::OutOfMemory
    }
}
