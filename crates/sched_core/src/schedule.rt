//! The fixed schedule with one worker.

ghost use Rattle.std.specs.Prelude.{◌≡◌, ◌≢◌, ◌<◌, true, false, Some, None, IsNone, IfSome};
ghost use Rattle.scheduling.specs.LinkLists.{AreTurns};
ghost use Rattle.scheduling.specs.Inside.Lowest.{NoneOpenBelow};
ghost use Rattle.scheduling.specs.Rows.{read_row};
ghost use Rattle.scheduling.specs.State.{State, status_at};
ghost use Rattle.scheduling.specs.Inside.Work.{work_left};
ghost use Rattle.scheduling.specs.declared.status.NodeStatus.TheVariants.{Settled};
ghost use Rattle.sched_core.specs.Drives.{Drives, LeadsTo, IsOnSchedule};
ghost use Rattle.sched_core.specs.Inside.Fields.{state_of, IsSound};

use crate::answers::Answers;
use crate::machine::Machine;
use crate::{Next, is_over, next_step};
use resource_locks::Plan;
use scheduling::{Step, Turns, awaited, decided};

impl Machine {
    /// Takes the worker's next step, and answers the number below which no node is open then.
    fn advance(&mut self, plan: &Plan, turns: &Turns, answers: &Answers, lowest: usize) -> usize
        requires turns { AreTurns plan.now turns.now }
        requires sound { IsSound plan.now answers.now self.old }
        requires going { IsOnSchedule plan.now answers.now (state_of self.old) }
        requires none_below { NoneOpenBelow (state_of self.old) lowest }
        requires unread { read_row (state_of self.old) ≡ None }
        requires running { status_at (state_of self.old) 0 ≢ Settled }
        ensures sound { IsSound plan.now answers.now self.new }
        ensures workers { self.new.workers ≡ self.old.workers }
        ensures going { IsOnSchedule plan.now answers.now (state_of self.new) }
        ensures none_below { NoneOpenBelow (state_of self.new) result }
        ensures leads { (first : State) → LeadsTo plan.now answers.now first (state_of self.old) →
            LeadsTo plan.now answers.now first (state_of self.new) }
        ensures less { work_left plan.now (state_of self.new) < work_left plan.now (state_of self.old) }
    {
        let seat = &self.seats[0];
        let answer = answers.answer(awaited(plan, seat));
        let task = decided(plan, turns, answer, seat.task);
        let hand = seat.hand;
        let statuses = self.statuses.as_slice();
        let Next { action, lowest } = next_step(plan, statuses, &task, &hand, answer, lowest);
        let _ = self.act(plan, turns, 0, task, hand, answer, action);
        lowest
    }

    /// Gives the next event, if it is shown, and says whether it did.
    pub(crate) fn reads(&mut self, plan: &Plan, turns: &Turns, answers: &Answers) -> bool
        requires turns { AreTurns plan.now turns.now }
        requires sound { IsSound plan.now answers.now self.old }
        ensures sound { IsSound plan.now answers.now self.new }
        ensures workers { self.new.workers ≡ self.old.workers }
        ensures read { result ≡ true → read_row (state_of self.old) ≡ Some (state_of self.new) }
        ensures idle { result ≡ false → (read_row (state_of self.old) ≡ None) × (self.new ≡ self.old) }
    {
        self.step(plan, turns, answers, Step::Read).is_ok()
    }

    /// Goes on by one step of the schedule, and answers the number below which no node is open
    /// then, unless the schedule has ended: then nothing changes.
    fn goes_on(
        &mut self,
        plan: &Plan,
        turns: &Turns,
        answers: &Answers,
        lowest: usize,
    ) -> Option<usize>
        requires turns { AreTurns plan.now turns.now }
        requires sound { IsSound plan.now answers.now self.old }
        requires going { IsOnSchedule plan.now answers.now (state_of self.old) }
        requires none_below { NoneOpenBelow (state_of self.old) lowest }
        ensures sound { IsSound plan.now answers.now self.new }
        ensures workers { self.new.workers ≡ self.old.workers }
        ensures going { IsOnSchedule plan.now answers.now (state_of self.new) }
        ensures none_below { IfSome result (λ lowest. NoneOpenBelow (state_of self.new) lowest) }
        ensures leads { (first : State) → LeadsTo plan.now answers.now first (state_of self.old) →
            LeadsTo plan.now answers.now first (state_of self.new) }
        ensures less { IfSome result (λ _. work_left plan.now (state_of self.new) < work_left plan.now
            (state_of self.old)) }
        ensures unread { IsNone result → read_row (state_of self.new) ≡ None }
        ensures settled { IsNone result → status_at (state_of self.new) 0 ≡ Settled }
    {
        if self.reads(plan, turns, answers) {
            return Some(lowest);
        }
        if is_over(self.statuses.as_slice()) {
            return None;
        }
        Some(self.advance(plan, turns, answers, lowest))
    }

    /// Runs the schedule to its end.
    pub(crate) fn drive(&mut self, plan: &Plan, turns: &Turns, answers: &Answers)
        requires turns { AreTurns plan.now turns.now }
        requires sound { IsSound plan.now answers.now self.old }
        requires going { IsOnSchedule plan.now answers.now (state_of self.old) }
        ensures sound { IsSound plan.now answers.now self.new }
        ensures workers { self.new.workers ≡ self.old.workers }
        ensures going { IsOnSchedule plan.now answers.now (state_of self.new) }
        ensures drives { Drives plan.now answers.now (state_of self.old) (state_of self.new) }
    {
        let mut lowest = 0;
        'schedule: loop {
            let Some(next) = self.goes_on(plan, turns, answers, lowest) else {
                break 'schedule;
            };
            lowest = next;
        }
    }
}
