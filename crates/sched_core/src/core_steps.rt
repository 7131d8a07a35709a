//! The core of a run, a step at a time.

ghost use Rattle.std.specs.Prelude.{◌≡◌, ◌≢◌, ◌<◌, ◌≤◌, ℕ, List, Some, None, IfOk, IfErr, length};
ghost use Rattle.plan_events.specs.declared.outcome.Reply.{Reply};
ghost use Rattle.scheduling.specs.LinkLists.{AreTurns};
ghost use Rattle.scheduling.specs.Runs.{opening};
ghost use Rattle.sched_core.specs.Inside.Fields.{state_of, IsSound};
ghost use Rattle.sched_core.specs.Snapshot.{workers_refusal};

use crate::answers::Answers;
use crate::fault::{CoreFault, NotEnabled};
use crate::machine::Machine;
use crate::trace::Trace;
use plan_events::{CountFault, worker_count};
use resource_locks::Plan;
use scheduling::{Step, Turns};
use std::alloc::{AllocError, Global};
use std::marker::Model;

/// The number of workers, if there may be so many.
pub(crate) fn count_of(workers: u32) -> Result<u8, CoreFault>
    ensures count { IfOk result (λ count. (count ≡ workers) × (0 < count) × (count ≤ 64)
        × (workers_refusal workers ≡ None)) }
    ensures refused { IfErr result (λ fault. (workers_refusal workers ≡ Some fault) × (fault ≢ CoreFault.NoMemory)) }
{
    match worker_count(workers) {
        Ok(count) => Ok(count),
        Err(CountFault::None) => Err(CoreFault::NoWorkers),
        Err(CountFault::TooMany) => Err(CoreFault::TooManyWorkers),
    }
}

/// The turns of a plan, and the machine of so many workers before its first step.
pub(crate) fn started(
    alloc: Global,
    plan: &Plan,
    workers: u32,
) -> Result<(Turns, Machine), CoreFault>
    ensures turns { IfOk result (λ s. AreTurns plan.now s.0) }
    ensures opening { IfOk result (λ s. state_of s.1 ≡ opening plan.now workers) }
    ensures workers { IfOk result (λ s. s.1.workers ≡ workers) }
    ensures sound { IfOk result (λ s. (answers : List (ℕ × Reply)) → IsSound plan.now answers s.1) }
    ensures accepted { IfOk result (λ _. workers_refusal workers ≡ None) }
    ensures refused { IfErr result (λ fault. fault ≢ CoreFault.NoMemory → workers_refusal workers ≡ Some fault) }
    ensures no_memory { IfErr result (λ fault. fault ≡ CoreFault.NoMemory → workers_refusal workers ≡ None) }
{
    let count = count_of(workers)?;
    let turns = Turns::new(alloc, plan)?;
    let machine = Machine::new(alloc, plan, count)?;
    Ok((turns, machine))
}

/// A run of a plan with the answers of its jobs, a step at a time.
pub struct Core {
    plan: Plan,
    answers: Answers,
    turns: Turns,
    machine: Machine,
}

impl Drop for Core {
    fn drop(self) {
        let Core {
            plan: _,
            answers: _,
            turns: _,
            machine: _,
        } = self;
    }
}

impl Model for Core {
    ghost use Rattle.sched_core.specs.Snapshot.{Snapshot};

    ghost Value = { Snapshot };

    ghost use Rattle.sched_core.specs.Inside.CoreFields.{snapshot_of, IsSoundInside};

    ghost view = { snapshot_of };

    ghost invariant = { IsSoundInside };
}

impl Core {
    ghost use Rattle.sched_core.specs.Snapshot.{stepped, IsStep};
    ghost use Rattle.scheduling.specs.Shown.{IsShown};
    ghost use Rattle.sched_core.specs.Endings.{IsNotStuck};
    ghost use Rattle.sched_core.specs.Taken.{IsBoundedOn, IsShortOn};
    ghost use Rattle.sched_core.specs.Traces.{IsTraceOf, IsRightTrace, KeepsApart, HasExpected};

    /// The run of a plan by so many workers, before its first step. It makes room for every event, so that no step
    /// wants memory. No workers are refusal 60, more than 64 are refusal 61, want of memory is refusal 0.
    pub fn new(alloc: Global, plan: Plan, answers: Answers, workers: u32) -> Result<Core, CoreFault>
        ensures ok { IfOk result (λ core. core ≡ record
            { plan = plan; answers = answers; state = opening plan workers }) }
        ensures accepted { IfOk result (λ _. workers_refusal workers ≡ None) }
        ensures refused { IfErr result (λ fault. fault ≢ CoreFault.NoMemory → workers_refusal workers ≡ Some fault) }
        ensures no_memory { IfErr result (λ fault. fault ≡ CoreFault.NoMemory → workers_refusal workers ≡ None) }
    {
        let (turns, machine) = started(alloc, &plan, workers)?;
        Ok(Core {
            plan,
            answers,
            turns,
            machine,
        })
    }

    /// One step. Where it is not possible now it is refused (refusal 62), and nothing changes.
    pub fn step(&mut self, step: Step) -> Result<(), NotEnabled>
        ensures { IsStep self.old (stepped self.old step) result self.new }
    {
        self.machine
            .step(&self.plan, &self.turns, &self.answers, step)
    }

    /// What the run has left so far. No step counts as passed over.
    pub fn trace(&self, alloc: Global) -> Result<Trace, AllocError>
        ensures exact { IfOk result (λ trace. IsTraceOf self.now.state 0 trace) }
        ensures right { IfOk result (λ trace. IsRightTrace self.now.plan self.now.answers
            (length self.now.state.seats) trace) }
        ensures shown { IfOk result (λ trace. IsShown self.now.state trace.given.items) }
        ensures apart { IfOk result (λ trace. KeepsApart self.now.plan trace) }
        ensures expected { IfOk result (λ trace. HasExpected self.now.plan self.now.answers trace) }
        // Whatever the steps so far were, further ones bring the run to its end.
        ensures never_stuck { IsNotStuck self.now.plan self.now.answers self.now.state }
        // Of whatever steps are taken from here on few change the state.
        ensures bounded { IsBoundedOn self.now.plan self.now.answers self.now.state }
        ensures short { IsShortOn self.now.plan self.now.answers self.now.state }
    {
        self.machine.trace(alloc, 0)
    }
}
