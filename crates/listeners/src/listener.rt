//! What a listener has to do.

ghost use Rattle.std.specs.Prelude.{◌≡◌, ℕ, ◌+◌, ◌<◌, ◌≤◌, ◌++◌, ◌∷◌, [], List, OnOk};

use plan_events::Event;
use resource_locks::Plan;
use std::alloc::AllocError;

/// Is told of each event of a run, and keeps what it was told.
pub trait Listener: Drop {
    ghost use Rattle.plan_events.specs.declared.event.Event.{Event};
    ghost use Rattle.resource_locks.specs.Plans.{most_events};
    ghost use Rattle.listeners.specs.Listeners.{Telling, HasHeardMore};
    ghost use Rattle.std.specs.Option.{option_map};

    /// The events that it was told, in order.
    ghost got: { Self → List Event };

    /// How many more it can be told without taking memory.
    ghost room: { Self → ℕ };

    /// That it is as one that was told these events with these texts, in order. One that makes nothing of the texts
    /// need not say what this is.
    ghost heard: { Self → List Telling → Type 0 } = { λ _ _. Unit {0} };

    /// Makes room for the events of an execution of the plan. Refused or not, the room has not become smaller.
    fn prepare(&mut self, plan: &Plan) -> Result<(), AllocError>
        ensures got { got self.new ≡ got self.old }
        ensures room { OnOk result (most_events plan.now ≤ room self.new) }
        ensures grown { room self.old ≤ room self.new }
        ensures heard { HasHeardMore heard [] self.old self.new };

    /// Is told the next event. The text is the reason of a skipped node, and what the job of a finished node said.
    fn told(&mut self, event: Event, text: Option<&str>)
        requires { 0 < room self.old }
        ensures got { got self.new ≡ got self.old ++ event ∷ [] }
        ensures room { room self.new + 1 ≡ room self.old }
        ensures heard { HasHeardMore heard (record { event = event; text = option_map (λ t. t.now) text.entry } ∷ [])
            self.old self.new };

    /// The events that it was told, in order.
    fn got(&self) -> &[Event]
        ensures { result.now ≡ got self.now };

    /// How many more it can be told.
    fn room(&self) -> usize
        ensures { result ≡ room self.now };
}

impl Listener for Box<dyn Listener> {
    ghost got = { λ b. (Listener-box b).got b.value };

    ghost room = { λ b. (Listener-box b).room b.value };

    ghost heard = { λ b. (Listener-box b).heard b.value };

    fn prepare(&mut self, plan: &Plan) -> Result<(), AllocError> {
        (**self).prepare(plan)
    }

    fn told(&mut self, event: Event, text: Option<&str>) {
        (**self).told(event, text)
    }

    fn got(&self) -> &[Event] {
        (**self).got()
    }

    fn room(&self) -> usize {
        (**self).room()
    }
}
