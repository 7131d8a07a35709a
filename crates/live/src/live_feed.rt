//! A feed that goes to a writer while its events are told.

ghost use Rattle.std.specs.Prelude.{◌≡◌, ◌≤◌, ◌<◌, ◌&&◌, ◌++◌, ℕ, List, Option, OnOk, length, take, string_bytes};
ghost use Rattle.std.specs.Io.KnownBytes.{Appends};
ghost use Rattle.listeners.specs.Listeners.{telling};
ghost use Rattle.run_results.specs.Sending.{SendsExactly};
ghost use Rattle.listeners.specs.Observing.{KeepsSight};
ghost use Rattle.live.specs.LiveFeeds.{NotesIf, front_of, telling_line};
ghost use Rattle.listeners.specs.Endings.{is_finish};

use crate::feed_lines::{push_line, put_front};
use crate::line_form::LineForm;
use job_times::{Stopwatch, Timings};
use listeners::{Observer, ends_plan, is_finish};
use plan_events::{Event, Texts};
use resource_locks::Plan;
use run_results::{WriteFault, print_to};
use std::alloc::{AllocError, Global};
use std::io::Write;

/// How the printing goes.
#[derive(Clone, Copy, PartialEq, Eq)]
pub enum Outlet {
    /// Nothing happened yet.
    Waiting,
    /// The line of each event is printed, or waits for the next look.
    Open,
    /// What is left is printed when the run is over.
    Closed,
    /// The writer failed: nothing more is printed.
    Failed,
}

/// So many bytes of lines wait at most until there is nothing to be told, but for the last line.
const MOST_WAITING: usize = 16 * 1024;

/// The lines of a run's events, on their way to a writer: the line of each event but the plan's
/// finish is kept in a text that was lent, and all that wait there are handed to the writer at once when there is
/// nothing to be told, or they are many. The rest is printed by `finish`, when all is known to go well. If it is to tell times, it notes that of each node whose finish it is told,
/// once, whether or not something is printed still.
#[derive(Drop)]
pub struct LiveFeed<'w, 't, 's, W: Write, S: Stopwatch> {
    alloc: Global,
    writer: &'w mut W,
    head: &'w str,
    form: LineForm,
    outlet: Outlet,
    sent: usize,
    // the lines behind what was sent
    pending: &'t mut String,
    timings: &'t mut Timings,
    stopwatch: &'s S,
    // whether it tells how long nodes took
    timed: bool,
}

impl<'w, 't, 's, W: Write, S: Stopwatch> LiveFeed<'w, 't, 's, W, S> {
    ghost use Rattle.live.specs.LiveFeeds.{IsHandedOn, IsPrinted, shown_times};

    /// Lines of this form behind this text, of which nothing was printed. Closed at first, it prints
    /// nothing before `finish`. Lines wait in this text, which is emptied first. If it is to tell times, it notes in this
    /// table what the stopwatch says.
    pub fn new(
        alloc: Global,
        writer: &'w mut W,
        head: &'w str,
        form: LineForm,
        outlet: Outlet,
        pending: &'t mut String,
        timings: &'t mut Timings,
        stopwatch: &'s S,
        timed: bool,
    ) -> LiveFeed<'w, 't, 's, W, S>
        ensures same { result.writer.ghost_name ≡ writer.entry.ghost_name }
        ensures writer { result.writer.now ≡ writer.old }
        ensures head { result.head.now ≡ head.now }
        ensures form { result.form ≡ form }
        ensures outlet { result.outlet ≡ outlet }
        ensures none { result.sent ≡ 0 }
        ensures same_timings { result.timings.ghost_name ≡ timings.entry.ghost_name }
        ensures timings { result.timings.now ≡ timings.old }
        ensures timed { result.timed ≡ timed }
    {
        LiveFeed {
            alloc,
            writer,
            head,
            form,
            outlet,
            sent: 0,
            pending,
            timings,
            stopwatch,
            timed,
        }
    }

    /// How many bytes the writer took.
    pub fn sent(&self) -> usize
        ensures { result ≡ self.now.sent }
    {
        self.sent
    }

    /// How the printing goes.
    pub fn outlet(&self) -> Outlet
        ensures { result ≡ self.now.outlet }
    {
        self.outlet
    }

    /// What is noted of the run.
    pub fn timings(&self) -> &Timings
        ensures { result.now ≡ self.now.timings.now }
    {
        &*self.timings
    }

    /// Notes how long the node of this event took, if times are told and it has finished.
    fn note(&mut self, plan: &Plan, event: Event)
        ensures writer { self.new.writer ≡ self.old.writer }
        ensures head { self.new.head ≡ self.old.head }
        ensures form { self.new.form ≡ self.old.form }
        ensures outlet { self.new.outlet ≡ self.old.outlet }
        ensures sent { self.new.sent ≡ self.old.sent }
        ensures pending { self.new.pending ≡ self.old.pending }
        ensures timed { self.new.timed ≡ self.old.timed }
        ensures same_timings { self.new.timings.ghost_name ≡ self.old.timings.ghost_name }
        ensures noted { NotesIf (self.old.timed && is_finish event.kind) event.node
            self.old.timings.now.took.items self.new.timings.now.took.items }
    {
        if self.timed && is_finish(event.kind) {
            let stopwatch = self.stopwatch;
            self.timings.note(stopwatch, plan.tree(), event.node);
        }
    }

    /// Puts the line of an event behind the lines that wait, the first one behind what stands in front.
    fn add_line(&mut self, plan: &Plan, texts: &Texts, event: Event) -> Result<(), AllocError>
        ensures writer { self.new.writer ≡ self.old.writer }
        ensures head { self.new.head ≡ self.old.head }
        ensures form { self.new.form ≡ self.old.form }
        ensures sent { self.new.sent ≡ self.old.sent }
        ensures timings { self.new.timings ≡ self.old.timings }
        ensures timed { self.new.timed ≡ self.old.timed }
        ensures open { OnOk result (self.new.outlet ≡ Outlet.Open) }
        ensures line { OnOk result (string_bytes self.new.pending.now ≡ front_of self.old.outlet self.old.head.now
            (string_bytes self.old.pending.now) ++ telling_line self.old.form plan.now (shown_times self.old)
            (telling texts.now event)) }
    {
        put_front(&mut *self.pending, self.outlet, self.head)?;
        push_line(
            self.alloc,
            &mut *self.pending,
            self.form,
            plan,
            texts,
            self.timed,
            &*self.timings,
            event,
        )?;
        self.outlet = Outlet::Open;
        Ok(())
    }

    /// Hands the lines that wait to the writer.
    fn hand_on(&mut self)
        requires going { self.old.outlet ≡ Outlet.Open }
        requires some { 0 < length (string_bytes self.old.pending.now) }
        ensures same { self.new.writer.ghost_name ≡ self.old.writer.ghost_name }
        ensures head { self.new.head ≡ self.old.head }
        ensures form { self.new.form ≡ self.old.form }
        ensures timings { self.new.timings ≡ self.old.timings }
        ensures timed { self.new.timed ≡ self.old.timed }
        ensures handed { IsHandedOn self.new.outlet (W.contents self.old.writer.now) (W.contents self.new.writer.now)
            self.old.sent self.new.sent (string_bytes self.old.pending.now) (string_bytes self.new.pending.now) }
    {
        // More bytes than can be counted are not printed before the end.
        if self.sent.checked_add(self.pending.len()).is_none() {
            self.outlet = Outlet::Closed;
            return;
        }
        match print_to(&mut *self.writer, self.pending.as_bytes()) {
            Ok(()) => {
                self.sent += self.pending.len();
                self.pending.clear();
            }
            Err(fault) => {
                self.sent += fault.sent;
                self.outlet = Outlet::Failed;
            }
        }
    }

    /// Hands on the lines that wait, if there are any and the printing goes on.
    fn send(&mut self)
        ensures { KeepsSight (IsPrinted W.contents) self.old self.new }
    {
        match self.outlet {
            Outlet::Waiting | Outlet::Closed | Outlet::Failed => return,
            Outlet::Open => {}
        }
        if self.pending.as_bytes().is_empty() {
            return;
        }
        self.hand_on();
    }

    /// Hands on the lines that wait, if these are many bytes.
    fn send_many(&mut self)
        ensures { KeepsSight (IsPrinted W.contents) self.old self.new }
    {
        if self.pending.len() < MOST_WAITING {
            return;
        }
        self.send();
    }

    /// Prints what is left of the whole output, which begins with what was printed. A writer that failed is left alone.
    pub fn finish(&mut self, whole: &[u8]) -> Result<(), WriteFault>
        requires fits { self.old.sent ≤ length whole.now }
        requires short { self.old.outlet ≡ Outlet.Failed → self.old.sent < length whole.now }
        ensures same { self.new.writer.ghost_name ≡ self.old.writer.ghost_name }
        ensures whole { (first : Option (List ℕ)) → Appends first (W.contents self.old.writer.now)
            (take self.old.sent whole.now) → SendsExactly first (W.contents self.new.writer.now) whole.now result }
        ensures failed { self.old.outlet ≡ Outlet.Failed → self.new.writer ≡ self.old.writer }
        ensures timings { self.new.timings ≡ self.old.timings }
    {
        if self.outlet == Outlet::Failed {
            return Err(WriteFault { sent: self.sent });
        }
        match print_to(&mut *self.writer, &whole[self.sent..]) {
            Ok(()) => Ok(()),
            Err(fault) => Err(WriteFault {
                sent: self.sent + fault.sent,
            }),
        }
    }
}

impl<'w, 't, 's, W: Write, S: Stopwatch> Observer for LiveFeed<'w, 't, 's, W, S> {
    ghost use Rattle.live.specs.LiveFeeds.{IsPrinted};

    ghost saw = { IsPrinted W.contents };

    fn see(&mut self, plan: &Plan, texts: &Texts, event: Event) {
        let event = &event;
        self.note(plan, *event);
        match self.outlet {
            Outlet::Closed | Outlet::Failed => return,
            Outlet::Waiting | Outlet::Open => {}
        }
        if ends_plan(*event) {
            self.outlet = Outlet::Closed;
            return;
        }
        match self.add_line(plan, texts, *event) {
            Ok(()) => self.send_many(),
            Err(AllocError) => self.outlet = Outlet::Closed,
        }
    }

    fn idle(&mut self) {
        self.send();
    }
}
