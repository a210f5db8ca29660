//! Stops of tasks.
ghost use Rattle.std.specs.Prelude.{◌≡◌, IfErr, IfOk, length};
ghost use Rattle.bz_first.specs.Tests.{AllHold};
ghost use Rattle.bz_event.specs.Stops.{StopsSomeTask};
ghost use Rattle.bz_history.specs.Histories.{count_of};
ghost use Rattle.bz_rules.specs.Entries.{stop_entries};
ghost use Rattle.bz_rules.specs.Rules.{stop_answer_rules};
ghost use Rattle.bz_core.specs.Giving.{Gives, with_entries};
ghost use Rattle.bz_core.specs.Handing.{unmarked};
ghost use Rattle.bz_core.specs.Searches.{now};

use crate::answering::{Taken, taken_as};
use crate::appending::push_entry;
use crate::searches::Search;
use crate::stops::copy_stop;
use bz_event::{Event, Solved, Stamp, Why};
use bz_num::OutOfMemory;
use bz_rules::judge_stop;
use bz_tableau::WideAt;

impl Search<'_> {
    /// Ends the search by the stop of a task, whose mark is taken off.
    fn accept_stop(&mut self, stamp: Stamp, s: &Solved<WideAt>) -> Result<u32, OutOfMemory>
        requires stamp { stamp.count ≡ count_of stamp.worker self.old.history }
        requires promise { StopsSomeTask self.old.split.model self.old.split.part s.now }
        requires rules { AllHold (stop_answer_rules self.old.split (now self.old) s.now) }
        ensures refused { IfErr result (λ _. self.new ≡ self.old) }
        ensures entries { IfOk result (λ n. n ≡ length (stop_entries self.old.split self.old.budget (now self.old) s.now)) }
        ensures search { IfOk result (λ _. self.new ≡ with_entries self.old stamp
            (stop_entries self.old.split self.old.budget (now self.old) s.now) (unmarked s.now.task self.old.marks)) }
    {
        let why = Why::Wide(copy_stop(*self.history.allocator(), s)?);
        self.history.reserve(1)?;
        self.marks.take_off(s.task);
        self.progress.stop(&why);
        push_entry(&mut self.history, stamp, Event::Stop { why });
        Ok(1)
    }

    /// Takes the stop of a task, where the search has the task and the program is that of the task: the search ends. After
    /// `Late`, `Unfit` and want of memory the search is unchanged. It takes memory.
    pub fn give_stop(&mut self, stamp: Stamp, s: &Solved<WideAt>) -> Result<Taken, OutOfMemory>
        requires stamp { stamp.count ≡ count_of stamp.worker self.old.history }
        requires promise { StopsSomeTask self.old.split.model self.old.split.part s.now }
        ensures refused { IfErr result (λ _. self.new ≡ self.old) }
        ensures given { IfOk result (Gives self.old self.new stamp (stop_answer_rules self.old.split (now self.old) s.now)
            (stop_entries self.old.split self.old.budget (now self.old) s.now) (unmarked s.now.task self.old.marks)) }
    {
        match judge_stop(*self.history.allocator(), self.split, &self.progress, s)? {
            Err(refused) => Ok(taken_as(refused)),
            Ok(()) => {
                let entries = self.accept_stop(stamp, s)?;
                Ok(Taken::Done { entries })
            },
        }
    }
}
