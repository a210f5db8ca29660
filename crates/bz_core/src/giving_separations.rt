//! Answers of separations.
ghost use Rattle.std.specs.Prelude.{◌≡◌, IfErr, IfOk, length};
ghost use Rattle.bz_first.specs.Tests.{AllHold};
ghost use Rattle.bz_event.specs.declared.tasks.TaskName.TheVariants as name;
ghost use Rattle.bz_event.specs.Separations.{SolvesSomeSeparation};
ghost use Rattle.bz_history.specs.Histories.{count_of};
ghost use Rattle.bz_rules.specs.Entries.{IsKnownAnswer, separation_entries};
ghost use Rattle.bz_rules.specs.Rules.{separation_answer_rules};
ghost use Rattle.bz_core.specs.Giving.{GivesSeparation, with_entries};
ghost use Rattle.bz_core.specs.Handing.{unmarked};
ghost use Rattle.bz_core.specs.Searches.{now};

use crate::answering::{Taken, taken_as};
use crate::entering::{Planned, count_events, enter_answer, push_events};
use crate::planning_separations::plan_separation;
use crate::searches::Search;
use bz_event::{SepAnswer, Solved, Stamp, TaskName};
use bz_num::OutOfMemory;
use bz_rules::{judge_separation, known_cut};

impl Search<'_> {
    /// Appends the events of a separation's answer, where `known` is the number that the pool has for its cut, and takes its
    /// mark off. All memory comes before any change.
    fn accept_separation(
        &mut self,
        stamp: Stamp,
        number: u32,
        block: u32,
        s: &Solved<SepAnswer>,
        known: Option<u32>,
    ) -> Result<u32, OutOfMemory>
        requires stamp { stamp.count ≡ count_of stamp.worker self.old.history }
        requires promise { SolvesSomeSeparation self.old.split.model self.old.split.part s.now }
        requires task { s.now.task ≡ name.Sep number block }
        requires rules { AllHold (separation_answer_rules self.old.split (now self.old) s.now) }
        requires known { IsKnownAnswer (now self.old).cuts known s.now.answer }
        ensures refused { IfErr result (λ _. self.new ≡ self.old) }
        ensures entries { IfOk result (λ n. n
            ≡ length (separation_entries self.old.split self.old.budget (now self.old) known s.now)) }
        ensures search { IfOk result (λ _. self.new ≡ with_entries self.old stamp
            (separation_entries self.old.split self.old.budget (now self.old) known s.now)
            (unmarked s.now.task self.old.marks)) }
    {
        let alloc = *self.history.allocator();
        // One plan is entered in the state, and one appended to the history.
        let entered = plan_separation(alloc, self.split, &self.progress, number, block, s, known)?;
        let appended = plan_separation(alloc, self.split, &self.progress, number, block, s, known)?;
        self.progress.reserve()?;
        self.history.reserve(4)?;
        self.marks.take_off(s.task);
        let spent = enter_answer(self.split, &mut self.progress, self.budget, number, entered);
        let Planned { first, completion } = appended;
        let entries = count_events(&completion, spent);
        push_events(&mut self.history, stamp, first, number, completion, spent);
        Ok(entries)
    }

    /// Takes the answer of a separation, where its task is one of the search's and its point and program are those of the
    /// task. A cut is appended, or named by the number that the pool has for it, also where the post has ended; the part of a
    /// block completes a live post, which may then become the best and close its node. Where the units are spent, the search
    /// stops. After `Late`, `Unfit` and want of memory the search is unchanged. It takes memory.
    pub fn give_sep(&mut self, stamp: Stamp, s: &Solved<SepAnswer>) -> Result<Taken, OutOfMemory>
        requires stamp { stamp.count ≡ count_of stamp.worker self.old.history }
        requires promise { SolvesSomeSeparation self.old.split.model self.old.split.part s.now }
        ensures refused { IfErr result (λ _. self.new ≡ self.old) }
        ensures given { IfOk result (GivesSeparation self.old self.new stamp s.now) }
    {
        let known = known_cut(self.progress.pool(), &s.answer);
        let TaskName::Sep { post, block } = s.task else {
            return Ok(Taken::Unfit);
        };
        match judge_separation(self.split, &self.progress, s) {
            Err(refused) => Ok(taken_as(refused)),
            Ok(()) => {
                let entries = self.accept_separation(stamp, post, block, s, known)?;
                Ok(Taken::Done { entries })
            },
        }
    }
}
