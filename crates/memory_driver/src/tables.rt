//! The call that makes the table of a run.

ghost use Rattle.std.specs.Prelude.{ℕ, IfOk};
ghost use Rattle.run_table.specs.Seats.{IsSeatOf};
ghost use Rattle.test_jobs.specs.Acting.{replies_left};
ghost use Rattle.worker_pool.specs.Premises.{JobsMayAnswer};
ghost use Rattle.worker_pool.specs.Reports.{run_of};

use crate::inputs::{SHOP, plan_of, scripts_of};
use crate::printer::Printer;
use crate::said::Said;
use crate::values::push_plan;
use resource_locks::Plan;
use run_table::{Closed, DispatcherSeat, Jobs, Refused, RunTable};
use std::alloc::{AllocError, Global};
use std::io::Write;
use std::sync::Arc;
use test_jobs::{Act, Actor, Board, cast};
use unique_id::both;

/// A board with no flags.
fn board(alloc: Global) -> Result<Arc<Board>, AllocError> {
    Ok(Arc::new(alloc, Board::new(alloc, 0)?)?)
}

/// The jobs of a suite's plan, each of which ends as its line says.
pub(crate) fn jobs_of(alloc: Global, plan: &Plan, text: &str) -> Result<Jobs<Actor>, AllocError>
    ensures { IfOk result (λ jobs. (workers ring : ℕ) →
        JobsMayAnswer replies_left (run_of plan.now workers ring jobs.items)) }
{
    let (scripts, board) = both(scripts_of(alloc, text), board(alloc))?;
    cast(alloc, plan, scripts.as_slice(), Act::Ends, &board)
}

/// Adds what jobs answer that are run now, in the order of their numbers.
fn push_jobs(said: &mut Said, mut jobs: Jobs<Actor>) {
    for (number, job) in jobs.iter_mut() {
        said.show("job ", number.number());
        said.quote(" ", &job.finish());
        said.add("\n");
    }
}

/// Adds what a plan has, and what its jobs answer that are run now.
pub(crate) fn push_handed(said: &mut Said, plan: &Plan, jobs: Jobs<Actor>) {
    push_plan(said, plan);
    push_jobs(said, jobs)
}

/// Adds that a call was refused with this number, and what came back.
pub(crate) fn push_refused(said: &mut Said, number: u8, plan: &Plan, jobs: Jobs<Actor>) {
    said.refuse(number);
    said.add("\n");
    push_handed(said, plan, jobs)
}

/// A table with the dispatcher's seat, or the plan and the jobs that came back.
type Prepared = Result<(RunTable<Actor>, DispatcherSeat<Actor>), Refused<Actor>>;

/// Adds what is said of a table, which is closed, or of its refusal; hands the plan on.
fn push_closed(said: &mut Said, made: Prepared) -> Plan
    requires { IfOk made (λ t. IsSeatOf t.0.table t.1.seat) }
{
    match made {
        Ok((table, dispatcher_seat)) => {
            let Closed {
                plan,
                jobs,
                used,
                notes,
            } = table.close(dispatcher_seat);
            drop(used);
            drop(notes);
            push_handed(said, &plan, jobs);
            plan
        }
        Err(refused) => {
            let Refused { cause, plan, jobs } = refused;
            push_refused(said, cause.number(), &plan, jobs);
            plan
        }
    }
}

/// Tells of a table; hands the plan on.
fn tell_closed<W: Write>(alloc: Global, out: &mut Printer<W>, made: Prepared) -> Plan
    requires { IfOk made (λ t. IsSeatOf t.0.table t.1.seat) }
{
    let mut said = Said::new(alloc);
    let plan = push_closed(&mut said, made);
    out.tell(said);
    plan
}

/// Says that this plan is handed in, and answers its jobs.
fn show<W: Write>(
    alloc: Global,
    out: &mut Printer<W>,
    plan: &Plan,
) -> Result<Jobs<Actor>, AllocError> {
    let (shown, jobs) = both(jobs_of(alloc, plan, SHOP), jobs_of(alloc, plan, SHOP))?;
    let mut given = Said::new(alloc);
    push_handed(&mut given, plan, shown);
    out.given();
    out.say(given);
    Ok(jobs)
}

/// `RunTable::prepare`, for the plan that is handed in; answers the plan that came back.
fn prepare<W: Write>(alloc: Global, out: &mut Printer<W>, plan: Plan) -> Result<Plan, AllocError> {
    let Ok(jobs) = show(alloc, out, &plan) else {
        drop(plan);
        return Err(AllocError);
    };
    out.call();
    let made = RunTable::prepare(alloc, plan, jobs, 2, 1024);
    out.answered();
    Ok(tell_closed(alloc, out, made))
}

/// `RunTable::prepare`, twice.
pub(crate) fn table<W: Write>(alloc: Global, out: &mut Printer<W>) -> Result<(), AllocError> {
    let plan = plan_of(alloc, SHOP)?;
    let plan = prepare(alloc, out, plan)?;
    let plan = prepare(alloc, out, plan)?;
    drop(plan);
    Ok(())
}
