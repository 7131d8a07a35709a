//! The one step that a worker's task allows.

ghost use Rattle.std.specs.Prelude.{◌≡◌, ◌≢◌, ℕ, true, None};
ghost use Rattle.scheduling.specs.Shown.{named};
ghost use Rattle.scheduling.specs.declared.task.Opening.TheVariants.{Backing};
ghost use Rattle.scheduling.specs.declared.task.Closing.TheVariants.{Settling};
ghost use Rattle.scheduling.specs.declared.task.Task.TheVariants.{Opens, Closes};
ghost use Rattle.table_rule.specs.Plays.{back_due};
ghost use Rattle.run_table.specs.Handles.{about_in, event_due_at, offer_due_at};
ghost use Rattle.run_table.specs.Seats.{IsSeatOf};
ghost use Rattle.workers.specs.Going.{GoesOn, HasRoom};
ghost use Rattle.workers.specs.Leading.{GoesOnFrom};
ghost use Rattle.workers.specs.Premises.{MayAnswer};
ghost use Rattle.workers.specs.Inside.Steady.{Phase, ReadySteady, Steady};

use crate::answering::answer;
use crate::place::Place;
use descriptor::NodeId;
use node_sources::{IdleRounds, Sources};
use plan_events::Job;
use run_table::{RunTable, WorkerSeat};
use scheduling::{Closing, Opening};
use std::sync::Wait;

/// Looks once whether there is room in the ring for the event that it has drawn.
fn look_for_room<B: Job>(table: &RunTable<B>, seat: &mut WorkerSeat<B>) -> bool
    requires table { IsSeatOf table.now.table seat.old.seat }
    requires due { named seat.old.number seat.old.task ≢ None }
    ensures goes_on { GoesOn seat.old.seat seat.new.seat }
    ensures steady { (phase : Phase) → Steady phase seat.old.seat → Steady phase seat.new.seat }
    ensures due { named seat.new.number seat.new.task ≢ None }
    ensures room { result ≡ true → HasRoom seat.new.number seat.new.task seat.new.seat }
{
    seat.room_due(table)
}

/// Waits until there is room in the ring for the event that it has drawn.
fn wait_for_room<B: Job, R: Wait>(
    rt: &R,
    table: &RunTable<B>,
    seat: &mut WorkerSeat<B>,
    sources: &Sources,
)
    requires table { IsSeatOf table.now.table seat.old.seat }
    requires due { named seat.old.number seat.old.task ≢ None }
    ensures goes_on { GoesOn seat.old.seat seat.new.seat }
    ensures steady { (phase : Phase) → Steady phase seat.old.seat → Steady phase seat.new.seat }
    ensures due { named seat.new.number seat.new.task ≢ None }
    ensures room { HasRoom seat.new.number seat.new.task seat.new.seat }
{
    let mut idle = IdleRounds::new();
    for _ in rt.forever() {
        sources.look_for_room(&idle);
        if look_for_room(table, seat) {
            return;
        }
        sources.wait_for_room(rt, &mut idle);
    }
    unreachable!()
}

/// Looks whether there is room in the ring for the event that it has drawn, and else waits until there is.
fn find_room<B: Job, R: Wait>(
    rt: &R,
    table: &RunTable<B>,
    seat: &mut WorkerSeat<B>,
    sources: &Sources,
)
    requires table { IsSeatOf table.now.table seat.old.seat }
    requires due { named seat.old.number seat.old.task ≢ None }
    ensures goes_on { GoesOn seat.old.seat seat.new.seat }
    ensures steady { (phase : Phase) → Steady phase seat.old.seat → Steady phase seat.new.seat }
    ensures due { named seat.new.number seat.new.task ≢ None }
    ensures room { HasRoom seat.new.number seat.new.task seat.new.seat }
{
    // mostly there is, and then no round is begun
    if look_for_room(table, seat) {
        return;
    }
    wait_for_room(rt, table, seat, sources);
}

/// Shows the event that it has drawn, once there is room for it in the ring.
fn show<B: Job, R: Wait>(rt: &R, table: &RunTable<B>, seat: &mut WorkerSeat<B>, sources: &Sources)
    requires table { IsSeatOf table.now.table seat.old.seat }
    requires due { named seat.old.number seat.old.task ≢ None }
    ensures goes_on { GoesOn seat.old.seat seat.new.seat }
    ensures steady { (phase : Phase) → Steady phase seat.old.seat → Steady phase seat.new.seat }
{
    find_room(rt, table, seat, sources);
    seat.show_due(table);
    sources.show();
}

/// The node that a task offers which opens this one.
fn offered_by(node: NodeId, opening: Opening) -> NodeId {
    match opening {
        Opening::Admitting(child) => child,
        _ => node,
    }
}

/// Offers this node, which is due.
pub(crate) fn offer<B: Job>(
    table: &RunTable<B>,
    seat: &mut WorkerSeat<B>,
    sources: &mut Sources,
    node: NodeId,
)
    requires table { IsSeatOf table.now.table seat.old.seat }
    requires due { offer_due_at seat.old.seat ≢ None }
    ensures goes_on { GoesOn seat.old.seat seat.new.seat }
    ensures steady { (phase : Phase) → ReadySteady phase seat.old.seat → Steady phase seat.new.seat }
{
    seat.admit_due(table);
    sources.offer(table.plan(), node);
}

/// The sibling that is to be offered to the worker at this place, if it is; or else the place of
/// the worker to whom it is offered.
fn passed_to(closing: Closing, place: u8) -> (Option<NodeId>, Option<u8>) {
    match closing {
        Closing::Passing(sibling, owner) => {
            if owner == place {
                (Some(sibling), None)
            } else {
                (None, Some(owner))
            }
        }
        _ => (None, None),
    }
}

/// Offers the next sibling, which is due, to the worker that may take it, and wakes that one.
fn pass_on<B: Job>(
    table: &RunTable<B>,
    seat: &mut WorkerSeat<B>,
    sources: &mut Sources,
    closing: Closing,
)
    requires table { IsSeatOf table.now.table seat.old.seat }
    requires due { offer_due_at seat.old.seat ≢ None }
    ensures goes_on { GoesOn seat.old.seat seat.new.seat }
    ensures steady { (phase : Phase) → Steady phase seat.old.seat → Steady phase seat.new.seat }
{
    let (mine, other) = passed_to(closing, seat.place());
    seat.admit_due(table);
    sources.keep(mine);
    if let Some(owner) = other {
        sources.wake(owner);
    }
}

/// Gives back the key that it took last, of so many, since the next one was busy.
fn back_out<B: Job>(
    table: &RunTable<B>,
    seat: &mut WorkerSeat<B>,
    sources: &mut Sources,
    taken: usize,
)
    requires table { IsSeatOf table.now.table seat.old.seat }
    requires due { back_due seat.old.task ≢ None }
    ensures goes_on { GoesOn seat.old.seat seat.new.seat }
    ensures steady { (phase : Phase) → Steady phase seat.old.seat → Steady phase seat.new.seat }
{
    seat.give_due(table);
    sources.back_out(taken);
}

/// Offers this node again, its own, a key of which was busy.
fn hand_back<B: Job>(
    table: &RunTable<B>,
    seat: &mut WorkerSeat<B>,
    sources: &mut Sources,
    node: NodeId,
)
    requires table { IsSeatOf table.now.table seat.old.seat }
    requires due { (n : ℕ) × (seat.old.task ≡ Opens n (Backing 0)) }
    ensures goes_on { GoesOn seat.old.seat seat.new.seat }
    ensures steady { (phase : Phase) → Steady phase seat.old.seat → Steady phase seat.new.seat }
{
    seat.give_up_due(table);
    sources.give_up(table.plan(), node);
}

/// Settles this node, its own.
fn end<B: Job>(table: &RunTable<B>, seat: &mut WorkerSeat<B>, sources: &mut Sources, node: NodeId)
    requires table { IsSeatOf table.now.table seat.old.seat }
    requires due { (n : ℕ) × (seat.old.task ≡ Closes n Settling) }
    ensures goes_on { GoesOn seat.old.seat seat.new.seat }
    ensures steady { (phase : Phase) → Steady phase seat.old.seat → Steady phase seat.new.seat }
{
    seat.settle_due(table);
    sources.settle(table.plan(), node);
}

/// Draws the first event of this node, its own, all keys of which are taken.
fn begin<B: Job>(table: &RunTable<B>, seat: &mut WorkerSeat<B>, sources: &mut Sources, node: NodeId)
    requires table { IsSeatOf table.now.table seat.old.seat }
    requires due { event_due_at seat.old.seat ≢ None }
    ensures goes_on { GoesOn seat.old.seat seat.new.seat }
    ensures steady { (phase : Phase) → Steady phase seat.old.seat → Steady phase seat.new.seat }
{
    seat.draw_due(table);
    sources.begin(table.plan(), node);
}

/// The step of a task that opens a node.
pub(crate) fn go_on_opening<B: Job, K: Place<B>, R: Wait>(
    rt: &R,
    table: &RunTable<B>,
    seat: &mut WorkerSeat<B>,
    place: &mut K,
    sources: &mut Sources,
    node: NodeId,
    opening: Opening,
)
    requires table { IsSeatOf table.now.table seat.old.seat }
    requires jobs { MayAnswer B.answers (about_in table.now.table) }
    requires task { seat.old.task ≡ Opens node opening }
    requires steady { (phase : Phase) × Steady phase seat.old.seat }
    ensures goes_on { GoesOn seat.old.seat seat.new.seat }
    ensures steady { (phase : Phase) → Steady phase seat.old.seat → Steady phase seat.new.seat }
    ensures led { GoesOnFrom K.led place.old place.new }
{
    match opening {
        Opening::Registering => seat.draw_due(table),
        Opening::RegisteredAt(_) => show(rt, table, seat, sources),
        Opening::Offering | Opening::Admitting(_) => {
            offer(table, seat, sources, offered_by(node, opening))
        }
        Opening::Noticing => seat.notice_due(table),
        Opening::Locking(_) => seat.weigh_due(table),
        Opening::Weighed(_, _) => seat.take_due(table),
        Opening::Backing(0) => hand_back(table, seat, sources, node),
        Opening::Backing(taken) => back_out(table, seat, sources, taken),
        Opening::Beginning(_) => begin(table, seat, sources, node),
        Opening::StartedAt(_) => show(rt, table, seat, sources),
        Opening::Awaiting => answer(table, seat, place, sources, node),
        Opening::Guarding => seat.give_guard_due(table),
    }
}

/// The step of a task that closes a node.
pub(crate) fn go_on_closing<B: Job, K: Place<B>, R: Wait>(
    rt: &R,
    table: &RunTable<B>,
    seat: &mut WorkerSeat<B>,
    place: &mut K,
    sources: &mut Sources,
    node: NodeId,
    closing: Closing,
)
    requires table { IsSeatOf table.now.table seat.old.seat }
    requires jobs { MayAnswer B.answers (about_in table.now.table) }
    requires task { seat.old.task ≡ Closes node closing }
    requires steady { (phase : Phase) × Steady phase seat.old.seat }
    ensures goes_on { GoesOn seat.old.seat seat.new.seat }
    ensures steady { (phase : Phase) → Steady phase seat.old.seat → Steady phase seat.new.seat }
    ensures led { GoesOnFrom K.led place.old place.new }
{
    match closing {
        Closing::AwaitingAfter => answer(table, seat, place, sources, node),
        Closing::Ending(_) => seat.draw_due(table),
        Closing::FinishedAt(_, _) | Closing::SkippedAt(_) => show(rt, table, seat, sources),
        Closing::Raising => seat.raise_due(table),
        Closing::Giving(0) => unreachable!(),
        Closing::Giving(_) => seat.give_due(table),
        Closing::Settling => end(table, seat, sources, node),
        Closing::Looking(_) => seat.look_due(table),
        Closing::Passing(_, _) => pass_on(table, seat, sources, closing),
        Closing::CountingOff => seat.count_off_due(table),
    }
}
