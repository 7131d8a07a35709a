//! All listeners of a run, who are told of its events together.

ghost use Rattle.std.specs.Prelude.{◌≡◌, ℕ, ◌<◌, ◌≤◌, ◌+◌, ◌-◌, ◌↔◌, ◌++◌, ◌∷◌, [], List, map, length, slice_get};
ghost use Rattle.std.specs.Prelude.{IsTrue, IsNone, IfSome, Some, None, IfOk, IfErr, OnOk};
ghost use Rattle.std.specs.List.{All};
ghost use Rattle.resource_locks.specs.Plans.{most_events};
ghost use Rattle.plan_events.specs.declared.event.Event.{Event};
ghost use Rattle.std.specs.Option.{option_map};
ghost use Rattle.listeners.specs.Listeners.{text_told, tellings_of, HasHeardMore, EachPlace};

use crate::listener::Listener;
use crate::observer::Observer;
use descriptor::NodeId;
use plan_events::{Event, EventKind, Texts};
use resource_locks::Plan;
use std::alloc::AllocError;

/// The greatest number of listeners.
const MOST_LISTENERS: usize = 16;

/// Refusal 80: there are more than 16 listeners. They are handed back.
#[derive(Drop)]
pub struct TooManyListeners<L = Box<dyn Listener>> {
    pub listeners: Vec<L>,
}

impl<L> TooManyListeners<L> {
    /// The number of the refusal.
    pub fn number(&self) -> u8
        ensures { result ≡ 80 }
    {
        80
    }
}

/// The listeners of a run, of whom there may be none: boxes of any types, if nothing else is said.
#[derive(Drop)]
pub struct Audience<L = Box<dyn Listener>> {
    listeners: Vec<L>,
    ghost few: { length listeners.items ≤ 16 },
}

impl<L: Listener> Audience<L> {
    /// The audience of these listeners, of whom there may be 16.
    pub fn new(listeners: Vec<L>) -> Result<Audience<L>, TooManyListeners<L>>
        ensures ok { IfOk result (λ audience. audience.listeners ≡ listeners) }
        ensures accepted { IfOk result (λ _. length listeners.items ≤ 16) }
        ensures refused { IfErr result (λ _. 16 < length listeners.items) }
        ensures handed_back { IfErr result (λ fault. fault.listeners ≡ listeners) }
    {
        if listeners.len() > MOST_LISTENERS {
            Err(TooManyListeners { listeners })
        } else {
            Ok(Audience { listeners })
        }
    }

    /// Lets each listener make room for the events of an execution of the plan. After want of memory some may have more
    /// room than before, and none has less.
    pub fn prepare(&mut self, plan: &Plan) -> Result<(), AllocError>
        ensures len { length self.new.listeners.items ≡ length self.old.listeners.items }
        ensures got { map L.got self.new.listeners.items ≡ map L.got self.old.listeners.items }
        ensures all_got { (before : List Event) → All (λ l. L.got l ≡ before) self.old.listeners.items →
            All (λ l. L.got l ≡ before) self.new.listeners.items }
        ensures room { OnOk result (All (λ l. most_events plan.now ≤ L.room l) self.new.listeners.items) }
        ensures grown { EachPlace (λ a b. L.room a ≤ L.room b) self.old.listeners.items self.new.listeners.items }
        ensures heard { EachPlace (λ a b. HasHeardMore L.heard [] a b) self.old.listeners.items self.new.listeners.items }
    {
        for index in 0..self.listeners.len() {
            self.listeners[index].prepare(plan)?;
        }
        Ok(())
    }

    /// Whether none was told anything.
    pub fn fresh(&self) -> bool
        ensures { IsTrue result ↔ All (λ l. L.got l ≡ []) self.now.listeners.items }
    {
        for listener in self.listeners.iter() {
            if !is_fresh(listener) {
                return false;
            }
        }
        true
    }

    /// Whether each can be told so many more events.
    pub fn has_room(&self, wanted: usize) -> bool
        ensures { IsTrue result ↔ All (λ l. wanted ≤ L.room l) self.now.listeners.items }
    {
        for listener in self.listeners.iter() {
            if listener.room() < wanted {
                return false;
            }
        }
        true
    }

    /// Tells each the next event. The text is the reason of a skipped node, and what the job of a finished node said.
    pub fn tell(&mut self, event: Event, text: Option<&str>)
        requires { All (λ l. 1 ≤ L.room l) self.old.listeners.items }
        ensures len { length self.new.listeners.items ≡ length self.old.listeners.items }
        ensures got { map L.got self.new.listeners.items ≡ map (λ (before : List Event). before ++ event ∷ [])
            (map L.got self.old.listeners.items) }
        ensures room { map L.room self.new.listeners.items ≡ map (λ n. n - 1) (map L.room self.old.listeners.items) }
        ensures all_got { (before : List Event) → All (λ l. L.got l ≡ before) self.old.listeners.items →
            All (λ l. L.got l ≡ before ++ event ∷ []) self.new.listeners.items }
        ensures all_room { (n : ℕ) → All (λ l. n + 1 ≤ L.room l) self.old.listeners.items →
            All (λ l. n ≤ L.room l) self.new.listeners.items }
        ensures heard { EachPlace (λ a b. HasHeardMore L.heard
            (record { event = event; text = option_map (λ t. t.now) text.entry } ∷ []) a b) self.old.listeners.items
            self.new.listeners.items }
    {
        let event = &event;
        for index in 0..self.listeners.len() {
            self.listeners[index].told(*event, text);
        }
    }

    /// Tells each these events in their order, with the texts of their nodes.
    pub fn tell_all(&mut self, texts: &Texts, events: &[Event])
        requires { All (λ l. length events.now ≤ L.room l) self.old.listeners.items }
        ensures len { length self.new.listeners.items ≡ length self.old.listeners.items }
        ensures got { map L.got self.new.listeners.items ≡ map (λ (before : List Event). before ++ events.now)
            (map L.got self.old.listeners.items) }
        ensures room { map L.room self.new.listeners.items ≡ map (λ n. n - length events.now)
            (map L.room self.old.listeners.items) }
        ensures heard { EachPlace (λ a b. HasHeardMore L.heard (tellings_of texts.now events.now) a b)
            self.old.listeners.items self.new.listeners.items }
    {
        for event in events {
            self.tell(*event, text_with(texts, *event));
        }
    }

    /// Tells listeners without room, whom nobody has prepared: they make room when the plan starts. If there is no
    /// memory, or the room comes to an end in the middle of a run, they are told nothing more of it.
    fn tell_late(&mut self, plan: &Plan, texts: &Texts, event: Event) {
        let event = &event;
        if starts_plan(*event) && self.prepare(plan).is_ok() && self.has_room(1) {
            self.tell(*event, text_with(texts, *event));
        }
    }

    /// What the listener at this place was told, from place 0.
    pub fn got(&self, place: usize) -> Option<&[Event]>
        ensures some { IfSome result (λ events. slice_get (map L.got self.now.listeners.items) place ≡ Some events.now) }
        ensures none { IsNone result ↔ (length self.now.listeners.items ≤ place) }
    {
        let listener = self.listeners.get(place)?;
        Some(listener.got())
    }

    /// The listeners, with what they were told.
    pub fn into_listeners(self) -> Vec<L>
        ensures { result ≡ self.listeners }
    {
        self.listeners
    }
}

/// What is told with an event: the reason of a skipped node, and what the job of a finished one said.
pub fn text_with(texts: &Texts, event: Event) -> Option<&str>
    ensures { option_map (λ t. t.now) result ≡ text_told texts.now event }
{
    match event.kind {
        EventKind::Skipped | EventKind::Finished => texts.of(event.node),
        EventKind::Started | EventKind::Registered => None,
    }
}

impl<L: Listener> Observer for Audience<L> {
    ghost use Rattle.listeners.specs.Observing.{HaveSeen};

    ghost saw = { λ _ first now ts. HaveSeen L.got L.room L.heard first.listeners.items now.listeners.items ts };

    /// Tells each listener the event with its text.
    fn see(&mut self, plan: &Plan, texts: &Texts, event: Event) {
        let event = &event;
        if self.has_room(1) {
            self.tell(*event, text_with(texts, *event));
        } else {
            self.tell_late(plan, texts, *event);
        }
    }

    fn idle(&mut self) {}
}

/// Whether a listener was told nothing.
fn is_fresh<L: Listener>(listener: &L) -> bool
    ensures { IsTrue result ↔ (L.got listener.now ≡ []) }
{
    listener.got().is_empty()
}

/// Whether the event is the plan's start, the first event of a run.
fn starts_plan(event: Event) -> bool {
    matches!(event.kind, EventKind::Started) && event.node == NodeId::ROOT
}
