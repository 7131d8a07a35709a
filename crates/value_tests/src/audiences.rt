//! Audiences, and a listener as one outside would write it.

ghost use Rattle.std.specs.Prelude.{◌+◌, ◌≤◌, length, vec_capacity};

use crate::plans::{finished, plan_of, started};
use listeners::{Audience, Listener, Recorder};
use plan_events::{Event, Status};
use resource_locks::Plan;
use run_results::Summary;
use std::alloc::{AllocError, Global};
use std::cell::Cell;
use std::rc::Rc;

/// Keeps events, and adds up how many bytes of text came with them.
#[derive(Drop)]
struct Gauge {
    events: Vec<Event>,
    room: usize,
    bytes: Rc<Cell<usize>>,
    ghost has_room: { length events.items + room ≤ vec_capacity events },
}

impl Listener for Gauge {
    ghost got = { λ g. g.events.items };

    ghost room = { λ g. g.room };

    fn prepare(&mut self, plan: &Plan) -> Result<(), AllocError> {
        self.events.reserve(plan.most_events())?;
        self.room = self.room.max(plan.most_events());
        Ok(())
    }

    fn told(&mut self, event: Event, text: Option<&str>) {
        self.events.push(event).unwrap();
        self.room -= 1;
        let bytes = match text {
            Some(text) => text.len(),
            None => 0,
        };
        self.bytes.set(self.bytes.get().wrapping_add(bytes));
    }

    fn got(&self) -> &[Event] {
        self.events.as_slice()
    }

    fn room(&self) -> usize {
        self.room
    }
}

/// Whether these 17 listeners are refused, and handed back.
fn hands_back(listeners: Vec<Box<dyn Listener>>) -> bool {
    match Audience::new(listeners) {
        Ok(_) => false,
        Err(fault) => fault.number() == 80 && fault.listeners.len() == 17,
    }
}

/// Whether 16 recorders are an audience, and come back out of it, and one listener more is refused with all of them.
pub(crate) fn takes_16_listeners_and_hands_17_back(alloc: Global) -> Option<bool> {
    let mut recorders: Vec<Box<dyn Listener>> = Vec::new(alloc);
    for _ in 0..16 {
        recorders
            .push(Box::new(alloc, Recorder::new(alloc)).ok()?)
            .ok()?;
    }
    let mut listeners = Audience::new(recorders).ok()?.into_listeners();
    let came_back = listeners.len() == 16;
    listeners
        .push(Box::new(alloc, Summary::new(alloc)).ok()?)
        .ok()?;
    Some(came_back && hands_back(listeners))
}

pub(crate) fn an_empty_audience_is_fresh_and_has_room(alloc: Global) -> bool {
    let nobody: Vec<Box<dyn Listener>> = Vec::new(alloc);
    let fits = match Audience::new(nobody) {
        Ok(audience) => {
            audience.fresh() && audience.has_room(1_000_000) && audience.got(0).is_none()
        }
        Err(_) => false,
    };
    fits
}

/// Whether the first two listeners of an audience have heard these events, and there is no third.
fn both_heard(audience: &Audience, events: &[Event]) -> bool {
    audience.got(0) == Some(events) && audience.got(1) == Some(events) && audience.got(2).is_none()
}

/// Whether an audience has heard the one event that it is told, and has room for six before it.
fn hears_one(audience: &mut Audience) -> bool {
    if !audience.fresh() || !audience.has_room(6) || !audience.has_room(1) {
        return false;
    }
    audience.tell(started(2), None);
    let heard = [started(2)];
    both_heard(audience, heard.as_slice()) && !audience.fresh() && audience.has_room(5)
}

/// Whether an audience has room for what it was prepared for, and not before, and hears.
fn hears(audience: &mut Audience, plan: &Plan) -> bool {
    let had_room = audience.has_room(1);
    audience.prepare(plan).is_ok() && !had_room && hears_one(audience)
}

/// Whether an audience of two listeners hears.
pub(crate) fn tells_every_listener_each_event(alloc: Global) -> Option<bool> {
    let mut listeners: Vec<Box<dyn Listener>> = Vec::new(alloc);
    listeners
        .push(Box::new(alloc, Recorder::new(alloc)).ok()?)
        .ok()?;
    listeners
        .push(Box::new(alloc, Summary::new(alloc)).ok()?)
        .ok()?;
    let mut audience = Audience::new(listeners).ok()?;
    let plan = plan_of(alloc, "engine e\n  class A\n")?;
    Some(hears(&mut audience, &plan))
}

/// Whether an audience has room for the event that it is told with a text.
fn is_told(audience: &mut Audience, plan: &Plan) -> bool {
    let has_room = audience.prepare(plan).is_ok() && audience.has_room(1);
    if has_room {
        audience.tell(finished(2, Status::Failed), Some("no luck"));
    }
    has_room
}

/// Whether an audience of a gauge, which adds up these bytes, is told a text.
fn tells(alloc: Global, bytes: Rc<Cell<usize>>) -> Option<bool> {
    let gauge = Gauge {
        events: Vec::new(alloc),
        room: 0,
        bytes,
    };
    let mut listeners: Vec<Box<dyn Listener>> = Vec::new(alloc);
    listeners.push(Box::new(alloc, gauge).ok()?).ok()?;
    let mut audience = Audience::new(listeners).ok()?;
    let plan = plan_of(alloc, "engine e\n  class A\n")?;
    Some(is_told(&mut audience, &plan))
}

/// How many bytes of text a gauge has heard of, if it was told.
fn bytes_heard(alloc: Global) -> Option<usize> {
    let bytes = Rc::new(alloc, Cell::new(0)).ok()?;
    let is_told = tells(alloc, Rc::clone(&bytes).ok()?)?;
    is_told.then_some(bytes.get())
}

pub(crate) fn tells_the_text_of_an_event(alloc: Global) -> bool {
    bytes_heard(alloc) == Some(7)
}
