//! Calls that make room for what listeners are told.

use crate::inputs::{PAIR, SHOP, plan_of};
use crate::printer::Printer;
use crate::said::Said;
use descriptor::NodeId;
use listeners::{Audience, Listener, Recorder};
use plan_events::{Event, EventKind};
use resource_locks::Plan;
use run_results::Summary;
use std::alloc::{AllocError, Global};
use std::io::Write;

/// The plan's start.
fn start() -> Event {
    Event {
        kind: EventKind::Started,
        node: NodeId::new(0),
        status: None,
        worker: 1,
    }
}

/// Adds what a listener was told, and its room.
fn push_kept<L: Listener>(said: &mut Said, listener: &L) {
    said.quote("", &listener.got());
    said.show(" ", listener.room());
    said.add("\n")
}

/// Adds what each of two listeners was told.
fn push_heard(said: &mut Said, audience: &Audience) {
    said.quote("", &audience.got(0));
    said.quote(" ", &audience.got(1));
    said.add("\n")
}

/// What is said of a call that answers nothing: that it was refused, if it was.
fn left(alloc: Global, answer: Result<(), AllocError>) -> Said {
    let mut said = Said::new(alloc);
    if answer.is_err() {
        said.add("refused 0\n");
    }
    said
}

/// `prepare` of a listener for this plan.
fn prepare<L: Listener, W: Write>(
    alloc: Global,
    out: &mut Printer<W>,
    listener: &mut L,
    plan: &Plan,
) {
    let mut given = Said::new(alloc);
    push_kept(&mut given, listener);
    out.given();
    out.say(given);
    out.call();
    let answer = listener.prepare(plan);
    out.answered();
    let mut said = left(alloc, answer);
    push_kept(&mut said, listener);
    out.tell(said);
}

/// Prepares a listener for a small plan, and tells it the plan's start.
fn tell_start<L: Listener>(alloc: Global, listener: &mut L) -> Result<(), AllocError> {
    let plan = plan_of(alloc, PAIR)?;
    let prepared = listener.prepare(&plan);
    drop(plan);
    prepared?;
    if listener.room() > 0 {
        listener.told(start(), None);
    }
    Ok(())
}

/// `prepare` of this listener for a suite with all that a line may declare, twice.
pub(crate) fn prepares<L: Listener, W: Write>(
    alloc: Global,
    out: &mut Printer<W>,
    mut listener: L,
) -> Result<(), AllocError> {
    tell_start(alloc, &mut listener)?;
    let plan = plan_of(alloc, SHOP)?;
    for _turn in 0..2 {
        prepare(alloc, out, &mut listener, &plan);
    }
    drop(plan);
    Ok(())
}

/// Says what each of two listeners was told before a call.
fn show_heard<W: Write>(alloc: Global, out: &mut Printer<W>, audience: &Audience) {
    let mut given = Said::new(alloc);
    push_heard(&mut given, audience);
    out.given();
    out.say(given);
}

/// Tells of a call that answers nothing, and what each of two listeners was told.
fn tell_heard<W: Write>(
    alloc: Global,
    out: &mut Printer<W>,
    answer: Result<(), AllocError>,
    audience: &Audience,
) {
    let mut said = left(alloc, answer);
    push_heard(&mut said, audience);
    out.tell(said);
}

/// `prepare` of an audience of these for this plan, twice.
fn prepares_all<W: Write>(
    alloc: Global,
    out: &mut Printer<W>,
    listeners: Vec<Box<dyn Listener>>,
    plan: &Plan,
) -> Result<(), AllocError> {
    let Ok(mut audience) = Audience::new(listeners) else {
        return Err(AllocError);
    };
    for _turn in 0..2 {
        show_heard(alloc, out, &audience);
        out.call();
        let answer = audience.prepare(plan);
        out.answered();
        tell_heard(alloc, out, answer, &audience);
    }
    Ok(())
}

/// How many listeners an audience has, of three at most.
fn count(audience: &Audience) -> usize {
    for place in 0..3 {
        if audience.got(place).is_none() {
            return place;
        }
    }
    3
}

/// `Audience::new`.
fn makes<W: Write>(alloc: Global, out: &mut Printer<W>, listeners: Vec<Box<dyn Listener>>) {
    out.given();
    out.call();
    let audience = Audience::new(listeners);
    out.answered();
    let mut said = Said::new(alloc);
    match &audience {
        Ok(audience) => {
            said.show("", count(audience));
            said.add(" listeners")
        }
        Err(fault) => said.refuse(fault.number()),
    }
    out.tell(said);
}

/// `Audience::new` of a recorder and a summary, or, where there is a plan, `prepare` of an audience of these for it,
/// twice.
pub(crate) fn of_two<W: Write>(
    alloc: Global,
    out: &mut Printer<W>,
    plan: Option<&Plan>,
) -> Result<(), AllocError> {
    let mut listeners: Vec<Box<dyn Listener>> = Vec::new(alloc);
    listeners.push(Box::new(alloc, Recorder::new(alloc))?)?;
    listeners.push(Box::new(alloc, Summary::new(alloc))?)?;
    match plan {
        Some(plan) => prepares_all(alloc, out, listeners, plan),
        None => {
            makes(alloc, out, listeners);
            Ok(())
        }
    }
}

/// `prepare` of an audience of two for a suite with all that a line may declare, twice.
pub(crate) fn prepares_two<W: Write>(
    alloc: Global,
    out: &mut Printer<W>,
) -> Result<(), AllocError> {
    let plan = plan_of(alloc, SHOP)?;
    let answer = of_two(alloc, out, Some(&plan));
    drop(plan);
    answer
}
