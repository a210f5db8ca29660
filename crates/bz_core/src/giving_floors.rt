//! Answers of floors.
ghost use Rattle.std.specs.Prelude.{◌≡◌, ◌∷◌, [], IfErr, IfOk, false, length};
ghost use Rattle.bz_first.specs.Tests.{AllHold};
ghost use Rattle.bz_event.specs.declared.tasks.TaskName.TheVariants as name;
ghost use Rattle.bz_event.specs.Floors.{SolvesSomeFloor};
ghost use Rattle.bz_history.specs.Histories.{count_of};
ghost use Rattle.bz_rules.specs.Entries.{floor_entries, floor_events};
ghost use Rattle.bz_rules.specs.Rules.{floor_answer_rules, floor_rules};
ghost use Rattle.bz_core.specs.Giving.{Gives, with_entries};
ghost use Rattle.bz_core.specs.Searches.{now};

use crate::answering::{Taken, taken_as};
use crate::appending::{enter_floor, push_entry};
use crate::searches::Search;
use bz_event::{Event, FloorAnswer, Solved, Stamp, TaskName};
use bz_num::OutOfMemory;
use bz_rules::judge_floor;
use std::alloc::Global;

/// The event of a floor's answer. It takes memory for its lists.
fn floor_event(alloc: Global, block: u32, answer: &FloorAnswer) -> Result<Event, OutOfMemory>
    ensures { IfOk result (λ event. event ∷ [] ≡ floor_events block answer.now) }
{
    match answer {
        FloorAnswer::Floor { basis, cut } => Ok(Event::Floor {
            block,
            basis: basis.copy(alloc)?,
            cut: cut.copy(alloc)?,
        }),
        FloorAnswer::Ray { d } => Ok(Event::Ray {
            block,
            d: d.copy(alloc)?,
        }),
    }
}

impl Search<'_> {
    /// Appends the event of a floor's answer, which is the next, and takes its mark off.
    fn accept_floor(
        &mut self,
        stamp: Stamp,
        block: u32,
        s: &Solved<FloorAnswer>,
    ) -> Result<u32, OutOfMemory>
        requires stamp { stamp.count ≡ count_of stamp.worker self.old.history }
        requires promise { SolvesSomeFloor self.old.split.model self.old.split.part s.now }
        requires task { s.now.task ≡ name.Floor block }
        requires rules { AllHold (floor_rules self.old.split (now self.old) block s.now.lp) }
        ensures refused { IfErr result (λ _. self.new ≡ self.old) }
        ensures entries { IfOk result (λ n. n ≡ length (floor_entries self.old.split self.old.budget (now self.old) s.now)) }
        ensures search { IfOk result (λ _. self.new ≡ with_entries self.old stamp
            (floor_entries self.old.split self.old.budget (now self.old) s.now) (record self.old.marks { floor = false })) }
    {
        let alloc = *self.history.allocator();
        // One for the state, and one for the history.
        let entered = floor_event(alloc, block, &s.answer)?;
        let appended = floor_event(alloc, block, &s.answer)?;
        self.progress.reserve()?;
        self.history.reserve(1)?;
        self.marks.set_floor(false);
        enter_floor(&mut self.progress, entered);
        push_entry(&mut self.history, stamp, appended);
        Ok(1)
    }

    /// Takes the answer of a floor, where its task is the next floor and its program that of the task: the floor, or the
    /// direction along which the block's cost falls, is appended. After `Late`, `Unfit` and want of memory the search is
    /// unchanged. It takes memory.
    pub fn give_floor(
        &mut self,
        stamp: Stamp,
        s: &Solved<FloorAnswer>,
    ) -> Result<Taken, OutOfMemory>
        requires stamp { stamp.count ≡ count_of stamp.worker self.old.history }
        requires promise { SolvesSomeFloor self.old.split.model self.old.split.part s.now }
        ensures refused { IfErr result (λ _. self.new ≡ self.old) }
        ensures given { IfOk result (Gives self.old self.new stamp (floor_answer_rules self.old.split (now self.old) s.now)
            (floor_entries self.old.split self.old.budget (now self.old) s.now) (record self.old.marks { floor = false })) }
    {
        let TaskName::Floor { block } = s.task else {
            return Ok(Taken::Unfit);
        };
        match judge_floor(self.split, &self.progress, block, &s.lp) {
            Err(refused) => Ok(taken_as(refused)),
            Ok(()) => {
                let entries = self.accept_floor(stamp, block, s)?;
                Ok(Taken::Done { entries })
            },
        }
    }
}
