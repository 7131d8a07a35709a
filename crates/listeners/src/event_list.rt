//! A list of events with room for more.

ghost use Rattle.std.specs.Prelude.{◌≡◌, ◌<◌, ◌≤◌, ◌-◌, ◌++◌, ◌∷◌, [], OnOk, OnErr};

use plan_events::Event;
use std::alloc::{AllocError, Global};
use std::marker::Model;

/// Events, and room for so many more that is used up as they come.
#[derive(Drop)]
pub struct EventList {
    events: Vec<Event>,
    room: usize,
}

impl Model for EventList {
    ghost use Rattle.std.specs.Prelude.{◌+◌, ◌≤◌, length, vec_capacity};
    ghost use Rattle.listeners.specs.Listeners.{Heard};

    ghost Value = { Heard };

    ghost view = { λ l. record { got = l.events.items; room = l.room } };

    ghost invariant = { λ l. length l.events.items + l.room ≤ vec_capacity l.events };
}

impl EventList {
    /// No events, and no room.
    pub fn new(alloc: Global) -> EventList
        ensures { result ≡ record { got = []; room = 0 } }
    {
        EventList {
            events: Vec::new(alloc),
            room: 0,
        }
    }

    /// Makes room for so many more events.
    pub fn reserve(&mut self, most: usize) -> Result<(), AllocError>
        ensures got { self.new.got ≡ self.old.got }
        ensures room { OnOk result (most ≤ self.new.room) }
        ensures grown { self.old.room ≤ self.new.room }
        ensures err { OnErr result (self.new ≡ self.old) }
    {
        self.events.reserve(most)?;
        self.room = self.room.max(most);
        Ok(())
    }

    /// Adds an event. It takes no memory.
    pub fn push(&mut self, event: Event)
        requires { 0 < self.old.room }
        ensures { self.new ≡ record { got = self.old.got ++ event ∷ []; room = self.old.room - 1 } }
    {
        self.events.push_reserved(event);
        self.room -= 1;
    }

    /// The events, in order.
    pub fn events(&self) -> &[Event]
        ensures { result.now ≡ self.now.got }
    {
        self.events.as_slice()
    }

    /// How many more events may be added.
    pub fn room(&self) -> usize
        ensures { result ≡ self.now.room }
    {
        self.room
    }
}
