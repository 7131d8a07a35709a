//! The events that a task draws and shows.

ghost use Rattle.std.specs.Prelude.{◌≡◌, ◌<◌, ℕ, Some};
ghost use Rattle.descriptor.specs.Nodes.{size};
ghost use Rattle.scheduling.specs.Choices.{event_of};
ghost use Rattle.scheduling.specs.Shown.{named};
ghost use Rattle.scheduling.specs.declared.task.Opening.{Opening as OpeningValue};
ghost use Rattle.scheduling.specs.declared.task.Closing.{Closing as ClosingValue};
ghost use Rattle.scheduling.specs.declared.task.Task.TheVariants.{Opens, Closes};
ghost use Rattle.scheduling.specs.declared.seat.Hand.{Hand as HandValue};
ghost use Rattle.scheduling.specs.Due.{event_due, drawn_seat, shown_seat, seated};

use crate::{Closing, Hand, Opening, Seat, Task, after_finish, after_start, one_more};
use descriptor::NodeId;
use plan_events::{Event, EventKind, Status};
use resource_locks::Plan;

/// An event by the worker at this place.
fn event_by(place: u8, kind: EventKind, node: NodeId, status: Option<Status>) -> Event
    requires { place < 64 }
    ensures { result ≡ event_of kind node status place }
{
    Event {
        kind,
        node,
        status,
        worker: place + 1,
    }
}

/// The event that a task draws, if it draws one.
pub fn due_event(place: u8, task: Task) -> Option<Event>
    requires { place < 64 }
    ensures { result ≡ event_due place task }
{
    match task {
        Task::Free => None,
        Task::Opens(node, opening) => match opening {
            Opening::Registering => Some(event_by(place, EventKind::Registered, node, None)),
            Opening::Beginning(true) => Some(event_by(place, EventKind::Skipped, node, None)),
            Opening::Beginning(false) => Some(event_by(place, EventKind::Started, node, None)),
            _ => None,
        },
        Task::Closes(node, closing) => match closing {
            Closing::Ending(status) => {
                Some(event_by(place, EventKind::Finished, node, Some(status)))
            }
            _ => None,
        },
    }
}

/// What the worker has once the event that its task draws stands at a place of the row.
pub fn after_draw(number: usize, task: Task, hand: Option<Hand>) -> Seat
    requires { (h : HandValue) → hand ≡ Some h → h.registered < 65535 }
    ensures { result ≡ drawn_seat number (seated task hand) task }
{
    match task {
        Task::Free => Seat { task, hand },
        Task::Opens(node, opening) => match opening {
            Opening::Registering => Seat {
                task: Task::Opens(node, Opening::RegisteredAt(number)),
                hand: one_more(hand),
            },
            Opening::Beginning(true) => Seat {
                task: Task::Closes(node, Closing::SkippedAt(number)),
                hand,
            },
            Opening::Beginning(false) => Seat {
                task: Task::Opens(node, Opening::StartedAt(number)),
                hand,
            },
            _ => Seat {
                task: Task::Opens(node, opening),
                hand,
            },
        },
        Task::Closes(node, closing) => match closing {
            Closing::Ending(status) => Seat {
                task: Task::Closes(node, Closing::FinishedAt(number, status)),
                hand,
            },
            _ => Seat {
                task: Task::Closes(node, closing),
                hand,
            },
        },
    }
}

/// The event that a task shows, and its place in the row, from 0; if it shows one.
pub fn named_by(place: u8, task: Task) -> Option<(usize, Event)>
    requires { place < 64 }
    ensures { result ≡ named place task }
{
    match task {
        Task::Free => None,
        Task::Opens(node, opening) => match opening {
            Opening::RegisteredAt(number) => {
                Some((number, event_by(place, EventKind::Registered, node, None)))
            }
            Opening::StartedAt(number) => {
                Some((number, event_by(place, EventKind::Started, node, None)))
            }
            _ => None,
        },
        Task::Closes(node, closing) => match closing {
            Closing::SkippedAt(number) => {
                Some((number, event_by(place, EventKind::Skipped, node, None)))
            }
            Closing::FinishedAt(number, status) => Some((
                number,
                event_by(place, EventKind::Finished, node, Some(status)),
            )),
            _ => None,
        },
    }
}

/// What the worker has once what its task shows is shown.
pub fn after_show(plan: &Plan, task: Task, hand: Option<Hand>) -> Seat
    requires opens { (n : ℕ) (d : OpeningValue) → task ≡ Opens n d → n < size plan.now.tree }
    requires closes { (n : ℕ) (d : ClosingValue) → task ≡ Closes n d → n < size plan.now.tree }
    ensures { result ≡ shown_seat plan.now (seated task hand) task }
{
    match task {
        Task::Free => Seat { task, hand },
        Task::Opens(node, opening) => match opening {
            Opening::RegisteredAt(_) => Seat {
                task: Task::Opens(node, Opening::Offering),
                hand,
            },
            Opening::StartedAt(_) => after_start(plan, hand, node),
            _ => Seat {
                task: Task::Opens(node, opening),
                hand,
            },
        },
        Task::Closes(node, closing) => match closing {
            Closing::SkippedAt(_) => Seat {
                task: Task::Closes(node, Closing::Settling),
                hand,
            },
            Closing::FinishedAt(_, status) => Seat {
                task: Task::Closes(node, after_finish(plan, node, status)),
                hand,
            },
            _ => Seat {
                task: Task::Closes(node, closing),
                hand,
            },
        },
    }
}
