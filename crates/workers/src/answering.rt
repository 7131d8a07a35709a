//! The jobs that a worker's task waits for: it runs them, and puts their answers in.

ghost use Rattle.std.specs.Prelude.{◌≡◌, ◌<◌, ℕ, true, length};
ghost use Rattle.plan_events.specs.Jobs.{unpulled};
ghost use Rattle.table_rule.specs.Picture.{gives_in, replies_in};
ghost use Rattle.table_rule.specs.Plays.{makes};
ghost use Rattle.table_rule.specs.declared.view.SlotState.TheVariants.{Out, Noted};
ghost use Rattle.plan_events.specs.declared.outcome.Reply.{Reply as ReplyValue};
ghost use Rattle.run_table.specs.Answering.{registered_by, IsToldAs};
ghost use Rattle.run_table.specs.Handles.{about_at, about_in, plan_at, ready_at, worker_at};
ghost use Rattle.run_table.specs.Moved.{job_slot};
ghost use Rattle.run_table.specs.Seats.{IsSeatOf, SameSeat, seated};
ghost use Rattle.workers.specs.Going.{GoesOn};
ghost use Rattle.workers.specs.Leading.{GoesOnFrom};
ghost use Rattle.workers.specs.Premises.{MayAnswer};
ghost use Rattle.workers.specs.Inside.Answering.{is_decided, GivesAfter, IsOut, IsTold, WaitsFor};
ghost use Rattle.workers.specs.Inside.Steady.{Phase, ReadySteady, Steady};

use crate::place::Place;
use crate::task_steps::offer;
use descriptor::NodeId;
use node_sources::Sources;
use plan_events::{Job, Note, Outcome};
use run_table::{RunTable, WorkerSeat};
use scheduling::{Closing, Opening, Task};

/// The step of a task that has waited for a job, as the answer decides it.
fn go_on_decided<B: Job>(table: &RunTable<B>, seat: &mut WorkerSeat<B>, sources: &mut Sources)
    requires table { IsSeatOf table.now.table seat.old.seat }
    requires decided { is_decided (ready_at seat.old.seat).seat.task ≡ true }
    ensures goes_on { GoesOn seat.old.seat seat.new.seat }
    ensures steady { (phase : Phase) → ReadySteady phase seat.old.seat → Steady phase seat.new.seat }
{
    match seat.ready_task(table) {
        Task::Free => unreachable!(),
        Task::Opens(_, opening) => match opening {
            Opening::Admitting(child) => offer(table, seat, sources, child),
            Opening::Guarding => seat.give_guard_due(table),
            _ => unreachable!(),
        },
        Task::Closes(_, closing) => match closing {
            Closing::Ending(_) => seat.draw_due(table),
            _ => unreachable!(),
        },
    }
}

/// Runs the job of this node, which is out, at this place, and puts it back with its answer.
pub(crate) fn run<B: Job, K: Place<B>>(
    table: &RunTable<B>,
    seat: &mut WorkerSeat<B>,
    place: &mut K,
    node: NodeId,
    mut job: B,
)
    requires table { IsSeatOf table.now.table seat.old.seat }
    requires out { (slot number : ℕ)
        × IsOut (B.answers job) (replies_in B.answers (about_at seat.old.seat).jobs number)
        (plan_at seat.old.seat) (worker_at seat.old.seat).slots seat.old.task seat.old.hand node slot number
        × GivesAfter (registered_by seat.old.task seat.old.hand)
        (gives_in B.gives (about_at seat.old.seat).jobs number) (B.gives job) }
    requires some { 0 < length (unpulled (B.answers job)) }
    ensures same { SameSeat seat.old.seat seat.new.seat }
    ensures task { seat.new.task ≡ seat.old.task }
    ensures hand { seat.new.hand ≡ seat.old.hand }
    ensures told { IsTold seat.old.seat seat.new.seat seat.old.task seat.old.hand node }
    ensures led { GoesOnFrom K.led place.old place.new }
{
    let Outcome { status, text } = place.run(node, &mut job);
    let Ok(()) = seat.text_in(table, node, status, Note::Own(text), job) else {
        unreachable!()
    };
}

/// Runs the job of this node for which the task waits, if there is one, and puts its answer in. Then the task is
/// decided.
fn run_awaited<B: Job, K: Place<B>>(
    table: &RunTable<B>,
    seat: &mut WorkerSeat<B>,
    place: &mut K,
    node: NodeId,
)
    requires table { IsSeatOf table.now.table seat.old.seat }
    requires jobs { MayAnswer B.answers (about_in table.now.table) }
    requires waits { WaitsFor node seat.old.task }
    requires steady { (phase : Phase) × Steady phase seat.old.seat }
    ensures goes_on { GoesOn seat.old.seat seat.new.seat }
    ensures decided { is_decided (ready_at seat.new.seat).seat.task ≡ true }
    ensures steady { (phase : Phase) → Steady phase seat.old.seat → ReadySteady phase seat.new.seat }
    ensures led { GoesOnFrom K.led place.old place.new }
{
    if let Some(job) = seat.body_out(table, node) {
        run(table, seat, place, node, job);
    }
}

/// The step of a task that waits for a job of this node, its body or its after-body: it runs that, and goes on as the
/// answer decides.
pub(crate) fn answer<B: Job, K: Place<B>>(
    table: &RunTable<B>,
    seat: &mut WorkerSeat<B>,
    place: &mut K,
    sources: &mut Sources,
    node: NodeId,
)
    requires table { IsSeatOf table.now.table seat.old.seat }
    requires jobs { MayAnswer B.answers (about_in table.now.table) }
    requires waits { WaitsFor node seat.old.task }
    requires steady { (phase : Phase) × Steady phase seat.old.seat }
    ensures goes_on { GoesOn seat.old.seat seat.new.seat }
    ensures steady { (phase : Phase) → Steady phase seat.old.seat → Steady phase seat.new.seat }
    ensures led { GoesOnFrom K.led place.old place.new }
{
    run_awaited(table, seat, place, node);
    go_on_decided(table, seat, sources);
}
