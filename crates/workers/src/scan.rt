//! How a worker comes to a node.

ghost use Rattle.std.specs.Prelude.{◌≡◌, ◌<◌, ◌≤◌, [], true, false, None, IfSome, IsNone};
ghost use Rattle.std.specs.List.{All};
ghost use Rattle.descriptor.specs.Nodes.{size};
ghost use Rattle.scheduling.specs.declared.task.Task.TheVariants.{Free};
ghost use Rattle.run_table.specs.Handles.{worker_at};
ghost use Rattle.run_table.specs.Seats.{IsSeatOf};
ghost use Rattle.workers.specs.Going.{GoesOn};
ghost use Rattle.workers.specs.Inside.Steady.{Steady, AtNodes};

use descriptor::NodeId;
use node_sources::{Circle, Sources};
use plan_events::Job;
use run_table::{RunTable, WorkerSeat};
use scheduling::NodeStatus;

/// Whether node 0 is settled, and so the run over. Where it is, the seat knows it.
pub(crate) fn is_over<B: Job>(table: &RunTable<B>, seat: &mut WorkerSeat<B>) -> bool
    requires table { IsSeatOf table.now.table seat.old.seat }
    requires free { seat.old.task ≡ Free }
    ensures goes_on { GoesOn seat.old.seat seat.new.seat }
    ensures over { result ≡ true → (worker_at seat.new.seat).over ≡ true }
    ensures task { seat.new.task ≡ Free }
    ensures hand { seat.new.hand ≡ seat.old.hand }
{
    matches!(seat.look_at(table, NodeId::ROOT), Ok(NodeStatus::Settled))
}

/// Claims this node, and says whether it did.
fn claim<B: Job>(table: &RunTable<B>, seat: &mut WorkerSeat<B>, node: NodeId) -> bool
    requires table { IsSeatOf table.now.table seat.old.seat }
    requires free { seat.old.task ≡ Free }
    requires empty { seat.old.hand ≡ None }
    ensures goes_on { GoesOn seat.old.seat seat.new.seat }
    ensures steady { Steady AtNodes seat.new.seat }
    ensures free { result ≡ false → seat.new.task ≡ Free }
    ensures empty { seat.new.hand ≡ None }
{
    let Ok(_) = seat.claim(table, node) else {
        return false;
    };
    true
}

/// Takes this node, which is offered to this worker alone, and says whether it did.
fn own<B: Job>(table: &RunTable<B>, seat: &mut WorkerSeat<B>, node: NodeId) -> bool
    requires table { IsSeatOf table.now.table seat.old.seat }
    requires free { seat.old.task ≡ Free }
    requires empty { seat.old.hand ≡ None }
    ensures goes_on { GoesOn seat.old.seat seat.new.seat }
    ensures steady { Steady AtNodes seat.new.seat }
    ensures free { result ≡ false → seat.new.task ≡ Free }
    ensures empty { seat.new.hand ≡ None }
{
    let Ok(_) = seat.own(table, node) else {
        return false;
    };
    true
}

/// The status of a node, for a worker that is free.
fn look_at<B: Job>(table: &RunTable<B>, seat: &mut WorkerSeat<B>, node: NodeId) -> NodeStatus
    requires table { IsSeatOf table.now.table seat.old.seat }
    requires free { seat.old.task ≡ Free }
    requires empty { seat.old.hand ≡ None }
    requires inside { node < size table.now.plan.tree }
    ensures goes_on { GoesOn seat.old.seat seat.new.seat }
    ensures free { seat.new.task ≡ Free }
    ensures empty { seat.new.hand ≡ None }
{
    let Ok(status) = seat.look_at(table, node) else {
        unreachable!()
    };
    status
}

/// Takes this node, if it is offered to this worker, or to any and it takes such, and no key of it was busy, and says
/// whether it did.
fn take<B: Job>(
    table: &RunTable<B>,
    seat: &mut WorkerSeat<B>,
    sources: &Sources,
    node: NodeId,
    takes_any: bool,
) -> bool
    requires table { IsSeatOf table.now.table seat.old.seat }
    requires free { seat.old.task ≡ Free }
    requires empty { seat.old.hand ≡ None }
    requires inside { node < size table.now.plan.tree }
    ensures goes_on { GoesOn seat.old.seat seat.new.seat }
    ensures steady { result ≡ true → Steady AtNodes seat.new.seat }
    ensures free { result ≡ false → seat.new.task ≡ Free }
    ensures empty { seat.new.hand ≡ None }
{
    let status = look_at(table, seat, node);
    if sources.pass_over(table.plan(), node) {
        return false;
    }
    match status {
        NodeStatus::Ready(None) if takes_any => claim(table, seat, node),
        NodeStatus::Ready(Some(place)) if place == seat.place() => own(table, seat, node),
        _ => false,
    }
}

/// Takes the next node of this circle which is offered to this worker, or to any if it takes such, and answers it; or
/// None, once none is left of the circle.
fn take_next<B: Job>(
    table: &RunTable<B>,
    seat: &mut WorkerSeat<B>,
    sources: &Sources,
    circle: &mut Circle,
    takes_any: bool,
) -> Option<NodeId>
    requires table { IsSeatOf table.now.table seat.old.seat }
    requires free { seat.old.task ≡ Free }
    requires empty { seat.old.hand ≡ None }
    requires inside { All (λ n. n < size table.now.plan.tree) circle.old }
    requires few { size table.now.plan.tree ≤ 16384 }
    ensures goes_on { GoesOn seat.old.seat seat.new.seat }
    ensures steady { IfSome result (λ _. Steady AtNodes seat.new.seat) }
    ensures free { IsNone result → seat.new.task ≡ Free }
    ensures empty { seat.new.hand ≡ None }
    ensures round { IsNone result → circle.new ≡ [] }
{
    while let Some(number) = circle.next() {
        let node = NodeId::new(number as u16);
        if take(table, seat, sources, node, takes_any) {
            return Some(node);
        }
    }
    None
}

/// Takes a node by one round, or by a look round the circle behind so many rounds, and says whether it did. If it takes
/// none that is offered to any it looks round the circle at once, where what is offered to it is found too.
pub(crate) fn take_node<B: Job>(
    table: &RunTable<B>,
    seat: &mut WorkerSeat<B>,
    sources: &mut Sources,
    takes_any: bool,
) -> bool
    requires table { IsSeatOf table.now.table seat.old.seat }
    requires free { seat.old.task ≡ Free }
    requires empty { seat.old.hand ≡ None }
    ensures goes_on { GoesOn seat.old.seat seat.new.seat }
    ensures steady { result ≡ true → Steady AtNodes seat.new.seat }
    ensures free { result ≡ false → seat.new.task ≡ Free }
    ensures empty { seat.new.hand ≡ None }
{
    if takes_any && sources.goes_a_round() {
        return take_ready(table, seat, sources);
    }
    let mut circle = Circle::behind(sources.last(), table.plan().tree().len());
    let node = take_next(table, seat, sources, &mut circle, takes_any);
    sources.found(node);
    node.is_some()
}

/// Takes the node that it has offered to itself, or else one whose number stands in a lane, and
/// says whether it did. A number whose node is not offered any more is dropped.
fn take_ready<B: Job>(table: &RunTable<B>, seat: &mut WorkerSeat<B>, sources: &mut Sources) -> bool
    requires table { IsSeatOf table.now.table seat.old.seat }
    requires free { seat.old.task ≡ Free }
    requires empty { seat.old.hand ≡ None }
    ensures goes_on { GoesOn seat.old.seat seat.new.seat }
    ensures steady { result ≡ true → Steady AtNodes seat.new.seat }
    ensures free { result ≡ false → seat.new.task ≡ Free }
    ensures empty { seat.new.hand ≡ None }
{
    if let Some(node) = sources.mine() {
        return take_offered(table, seat, node);
    }
    match sources.next(table.plan()) {
        Some(node) => claim(table, seat, node),
        None => false,
    }
}

/// Takes this node, which was offered to this worker, or is node 0.
fn take_offered<B: Job>(table: &RunTable<B>, seat: &mut WorkerSeat<B>, node: NodeId) -> bool
    requires table { IsSeatOf table.now.table seat.old.seat }
    requires free { seat.old.task ≡ Free }
    requires empty { seat.old.hand ≡ None }
    ensures goes_on { GoesOn seat.old.seat seat.new.seat }
    ensures steady { result ≡ true → Steady AtNodes seat.new.seat }
    ensures free { result ≡ false → seat.new.task ≡ Free }
    ensures empty { seat.new.hand ≡ None }
{
    if node == NodeId::ROOT {
        claim(table, seat, node)
    } else {
        own(table, seat, node)
    }
}
