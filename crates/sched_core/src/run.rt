//! Whole runs: of a list of steps, and of the fixed schedule.

ghost use Rattle.std.specs.Prelude.{◌≡◌, ◌≢◌, List, Some, None, IfOk, IfErr, OnOk};
ghost use Rattle.resource_locks.specs.Spares.{HasFreeSpares};
ghost use Rattle.scheduling.specs.LinkLists.{AreTurns};
ghost use Rattle.scheduling.specs.Runs.{opening};
ghost use Rattle.scheduling.specs.Shown.{IsShown};
ghost use Rattle.sched_core.specs.Snapshot.{workers_refusal};
ghost use Rattle.sched_core.specs.Runs.{run, passed_over};
ghost use Rattle.sched_core.specs.Endings.{IsNotStuck};
ghost use Rattle.sched_core.specs.Taken.{IsBounded, IsShort};
ghost use Rattle.sched_core.specs.Traces.{IsTraceOf, IsRightTrace, IsDriven, IsOnlyDriven, IsShownAtEnd, IsWhole};
ghost use Rattle.sched_core.specs.Traces.{KeepsApart, HasExpected, IsOnlyHistory, IsOfOneWorker};
ghost use Rattle.sched_core.specs.Rounds.{IsTakenWhole, EndsWhole};
ghost use Rattle.sched_core.specs.InTurns.{Schedules, IsScheduled, IsOnlyScheduled};
ghost use Rattle.sched_core.specs.Inside.Fields.{state_of, IsSound};
ghost use Rattle.sched_core.specs.Inside.Rounds.{IsOver, Leads};

use crate::answers::Answers;
use crate::core_steps::started;
use crate::fault::CoreFault;
use crate::machine::Machine;
use crate::trace::Trace;
use resource_locks::Plan;
use scheduling::{Step, Turns};
use std::alloc::{AllocError, Global};

impl Machine {
    /// Takes the steps in order, and says how many were passed over.
    fn run(&mut self, plan: &Plan, turns: &Turns, answers: &Answers, steps: &[Step]) -> usize
        requires turns { AreTurns plan.now turns.now }
        requires sound { IsSound plan.now answers.now self.old }
        ensures state { state_of self.new ≡ run plan.now answers.now (state_of self.old) steps.now }
        ensures passed_over { result ≡ passed_over plan.now answers.now (state_of self.old) steps.now }
        ensures sound { IsSound plan.now answers.now self.new }
        ensures workers { self.new.workers ≡ self.old.workers }
    {
        let mut missed = 0;
        for step in steps {
            if self.step(plan, turns, answers, *step).is_err() {
                missed += 1;
            }
        }
        missed
    }

    /// Takes the steps of the fixed schedule to its end: those of the only worker, or round after round.
    fn run_to_end(&mut self, plan: &Plan, turns: &Turns, answers: &Answers)
        requires turns { AreTurns plan.now turns.now }
        requires sound { IsSound plan.now answers.now self.old }
        requires opening { state_of self.old ≡ opening plan.now self.old.workers }
        ensures sound { IsSound plan.now answers.now self.new }
        ensures workers { self.new.workers ≡ self.old.workers }
        ensures leads { Leads plan.now answers.now (state_of self.old) (state_of self.new) }
        ensures over { HasFreeSpares plan.now → IsOver (state_of self.new) }
        ensures schedules { Schedules plan.now answers.now self.old.workers (state_of self.old) (state_of self.new) }
    {
        if self.workers == 1 {
            self.drive(plan, turns, answers);
        } else {
            self.drive_rounds(plan, turns, answers);
        }
    }
}

/// Runs the steps in order with so many workers. A step that is not possible when its turn comes is passed over and
/// counted. No workers are refusal 60, more than 64 are refusal 61, want of memory is refusal 0.
pub fn run_steps(
    alloc: Global,
    plan: &Plan,
    answers: &Answers,
    workers: u32,
    steps: &[Step],
) -> Result<Trace, CoreFault>
    ensures exact { IfOk result (λ trace. IsTraceOf (run plan.now answers.now (opening plan.now workers) steps.now)
        (passed_over plan.now answers.now (opening plan.now workers) steps.now) trace) }
    ensures right { IfOk result (λ trace. IsRightTrace plan.now answers.now workers trace) }
    ensures shown { IfOk result (λ trace. IsShown (run plan.now answers.now (opening plan.now workers) steps.now)
        trace.given.items) }
    ensures apart { IfOk result (λ trace. KeepsApart plan.now trace) }
    ensures expected { IfOk result (λ trace. HasExpected plan.now answers.now trace) }
    // Whatever the steps were, further ones bring the run to its end.
    ensures never_stuck { OnOk result
        (IsNotStuck plan.now answers.now (run plan.now answers.now (opening plan.now workers) steps.now)) }
    // Few of the steps change the state: the plan and the number of workers bound them, and the times that a worker is
    // turned back at a key; of a plan that is free of conflict the plan and the number of workers alone.
    ensures bounded { IfOk result (λ trace. IsBounded plan.now answers.now workers steps.now trace.passed_over) }
    ensures short { IfOk result (λ trace. IsShort plan.now answers.now workers steps.now trace.passed_over) }
    ensures accepted { IfOk result (λ _. workers_refusal workers ≡ None) }
    ensures refused { IfErr result (λ fault. fault ≢ CoreFault.NoMemory → workers_refusal workers ≡ Some fault) }
    ensures no_memory { IfErr result (λ fault. fault ≡ CoreFault.NoMemory → workers_refusal workers ≡ None) }
{
    let (turns, mut machine) = started(alloc, plan, workers)?;
    let missed = machine.run(plan, &turns, answers, steps);
    Ok(machine.trace(alloc, missed)?)
}

/// Runs the plan with so many workers to its end, by the fixed schedule. Of one worker that is the schedule of `drive`.
/// Several take turns in the order of their numbers, until no turn of a round finds anything to do. Before each turn the
/// dispatcher reads the next event, if it is shown. In its turn a worker takes the one step that its task allows. A free
/// one goes on with the factory in its hand, or takes the least numbered node that is offered to it or to any and all of
/// whose keys are free: then it claims it and takes these keys. No workers are refusal 60, more than 64 are refusal 61,
/// want of memory is refusal 0.
pub fn drive_with(
    alloc: Global,
    plan: &Plan,
    answers: &Answers,
    workers: u32,
) -> Result<Trace, CoreFault>
    ensures taken { IfOk result (λ trace. IsTakenWhole plan.now answers.now workers trace) }
    ensures right { IfOk result (λ trace. IsRightTrace plan.now answers.now workers trace) }
    ensures whole { IfOk result (λ trace. EndsWhole plan.now trace) }
    ensures apart { IfOk result (λ trace. KeepsApart plan.now trace) }
    ensures expected { IfOk result (λ trace. HasExpected plan.now answers.now trace) }
    // It is the trace of the schedule, and of no other: plan, replies and the number of workers determine it.
    ensures scheduled { IfOk result (λ trace. IsScheduled plan.now answers.now workers trace) }
    ensures only { IfOk result (λ trace. IsOnlyScheduled plan.now answers.now workers trace) }
    // Of one worker it is the schedule of `drive`.
    ensures one { IfOk result (λ trace. workers ≡ 1 → IsOfOneWorker plan.now answers.now trace) }
    // So it is from wherever the workers' steps lead, also those that the schedule does not take.
    ensures never_stuck { OnOk result ((steps : List Step) →
        IsNotStuck plan.now answers.now (run plan.now answers.now (opening plan.now workers) steps)) }
    ensures accepted { IfOk result (λ _. workers_refusal workers ≡ None) }
    ensures refused { IfErr result (λ fault. fault ≢ CoreFault.NoMemory → workers_refusal workers ≡ Some fault) }
    ensures no_memory { IfErr result (λ fault. fault ≡ CoreFault.NoMemory → workers_refusal workers ≡ None) }
{
    let (turns, mut machine) = started(alloc, plan, workers)?;
    machine.run_to_end(plan, &turns, answers);
    Ok(machine.trace(alloc, 0)?)
}

/// Runs the plan to its end with one worker, by the fixed schedule: the dispatcher reads whatever
/// is shown, and else the worker takes the one step that its task allows. A free worker goes on
/// with the factory in its hand, or takes the least numbered node that is offered to it or to any.
pub fn drive(alloc: Global, plan: &Plan, answers: &Answers) -> Result<Trace, AllocError>
    ensures driven { IfOk result (λ trace. IsDriven plan.now answers.now trace) }
    ensures only { IfOk result (λ trace. IsOnlyDriven plan.now answers.now trace) }
    ensures right { IfOk result (λ trace. IsRightTrace plan.now answers.now 1 trace) }
    ensures shown { IfOk result (λ trace. IsShownAtEnd plan.now answers.now trace) }
    ensures whole { IfOk result (λ trace. IsWhole plan.now trace) }
    ensures apart { IfOk result (λ trace. KeepsApart plan.now trace) }
    ensures expected { IfOk result (λ trace. HasExpected plan.now answers.now trace) }
    ensures only_history { IfOk result (λ trace. IsOnlyHistory plan.now answers.now trace) }
    // So it is from wherever one worker's steps lead, also those that the schedule does not take.
    ensures never_stuck { OnOk result
        ((steps : List Step) → IsNotStuck plan.now answers.now (run plan.now answers.now (opening plan.now 1) steps)) }
{
    match drive_with(alloc, plan, answers, 1) {
        Ok(trace) => Ok(trace),
        Err(_) => Err(AllocError),
    }
}
