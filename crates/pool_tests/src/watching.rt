//! The listeners of a run, and whether they were told alike.

ghost use Rattle.std.specs.Prelude.{◌+◌, ◌≤◌, length, vec_capacity};

use listeners::Listener;
use plan_events::{Event, EventKind};
use resource_locks::Plan;
use std::alloc::{AllocError, Global};
use std::sync::Arc;
use test_jobs::{Act, Board, sees_begin};

/// More nodes than a plan of these tests has.
const FLAGS: usize = 16;

/// More events than a run has.
const MOST_EVENTS: usize = 16_384;

/// Keeps events, counts the bytes of their texts, and sets the flag of each node that starts. While
/// it is told the start of the node before the one that it looks for, it looks whether that one's
/// body begins.
#[derive(Drop)]
pub(crate) struct Watcher {
    events: Vec<Event>,
    room: usize,
    flags: Arc<Board>,
    board: Arc<Board>,
    looks_for: Option<usize>,
    ghost has_room: { length events.items + room ≤ vec_capacity events },
}

impl Watcher {
    /// Looks whether the body of the node behind this one begins, if it looks for that one.
    fn look_behind(&self, node: usize) {
        match self.looks_for {
            Some(next) if next > node && next - node == 1 && sees_begin(&self.board, next) => {
                self.board.hurry()
            }
            _ => {}
        }
    }
}

impl Listener for Watcher {
    ghost got = { λ w. w.events.items };

    ghost room = { λ w. w.room };

    fn prepare(&mut self, plan: &Plan) -> Result<(), AllocError> {
        self.events.reserve(plan.most_events())?;
        self.room = self.room.max(plan.most_events());
        Ok(())
    }

    fn told(&mut self, event: Event, text: Option<&str>) {
        self.events.push(event).unwrap();
        self.room -= 1;
        if let Some(text) = text {
            self.board.hear(text.len());
        }
        if event.kind == EventKind::Started {
            self.flags.set(event.node.index());
            self.look_behind(event.node.index());
        }
    }

    fn got(&self) -> &[Event] {
        self.events.as_slice()
    }

    fn room(&self) -> usize {
        self.room
    }
}

/// A board with a flag for each node.
pub(crate) fn board_of(alloc: Global) -> Option<Arc<Board>> {
    Arc::new(alloc, Board::new(alloc, FLAGS).ok()?).ok()
}

/// A board like this one where jobs wait for their start to be told, and else another, since the
/// flags of jobs that meet are set by themselves alone.
fn flags_for(alloc: Global, act: Act, board: &Arc<Board>) -> Option<Arc<Board>> {
    match act {
        Act::Waits => Arc::try_clone(board).ok(),
        Act::Ends | Act::Counts(_) | Act::Meets(_, _) => board_of(alloc),
    }
}

/// A listener that sets these flags.
fn plain_watcher(alloc: Global, flags: Arc<Board>, board: &Arc<Board>) -> Option<Watcher> {
    let board = Arc::try_clone(board).ok()?;
    Some(Watcher {
        events: Vec::new(alloc),
        room: 0,
        flags,
        board,
        looks_for: None,
    })
}

/// The watcher of a run, which looks for the body of this node, if one is named.
pub(crate) fn one_watcher(
    alloc: Global,
    act: Act,
    board: &Arc<Board>,
    looks_for: Option<usize>,
) -> Option<Watcher> {
    let flags = flags_for(alloc, act, board)?;
    let mut watcher = plain_watcher(alloc, flags, board)?;
    watcher.looks_for = looks_for;
    Some(watcher)
}

/// A watcher that has more room than it is asked for.
pub(crate) fn roomy_watcher(alloc: Global, board: &Arc<Board>) -> Option<Watcher> {
    let flags = Arc::try_clone(board).ok()?;
    let mut watcher = plain_watcher(alloc, flags, board)?;
    watcher.events.reserve(MOST_EVENTS).ok()?;
    watcher.room = MOST_EVENTS;
    Some(watcher)
}

/// Whether the two listeners come back in their order, and were told these events, and texts of as many bytes.
pub(crate) fn are_told_alike(
    listeners: &[Box<dyn Listener>],
    events: &[Event],
    board: &Board,
    other: &Board,
) -> bool {
    match listeners {
        [first, second] => {
            first.room() < second.room()
                && first.got() == events
                && second.got() == events
                && board.heard() == other.heard()
        }
        _ => false,
    }
}
