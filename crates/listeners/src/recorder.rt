//! A listener that keeps what it was told, and does nothing else.

ghost use Rattle.std.specs.Prelude.{◌≡◌, ◌≤◌, [], OnOk, OnErr};
ghost use Rattle.resource_locks.specs.Plans.{most_events};

use crate::event_list::EventList;
use crate::listener::Listener;
use plan_events::Event;
use resource_locks::Plan;
use std::alloc::{AllocError, Global};
use std::marker::Model;

/// Keeps the events that it was told.
#[derive(Drop)]
pub struct Recorder {
    list: EventList,
}

impl Model for Recorder {
    ghost use Rattle.listeners.specs.Listeners.{Heard};

    ghost Value = { Heard };

    ghost view = { λ r. r.list };
}

impl Recorder {
    /// A recorder that was told nothing, and has no room yet.
    pub fn new(alloc: Global) -> Recorder
        ensures { result ≡ record { got = []; room = 0 } }
    {
        Recorder {
            list: EventList::new(alloc),
        }
    }
}

impl Listener for Recorder {
    ghost got = { λ r. r.got };

    ghost room = { λ r. r.room };

    fn prepare(&mut self, plan: &Plan) -> Result<(), AllocError>
        ensures got { self.new.got ≡ self.old.got }
        ensures room { OnOk result (most_events plan.now ≤ self.new.room) }
        ensures grown { self.old.room ≤ self.new.room }
        ensures err { OnErr result (self.new ≡ self.old) }
    {
        self.list.reserve(plan.most_events())
    }

    fn told(&mut self, event: Event, _text: Option<&str>) {
        self.list.push(event);
    }

    fn got(&self) -> &[Event] {
        self.list.events()
    }

    fn room(&self) -> usize {
        self.list.room()
    }
}
