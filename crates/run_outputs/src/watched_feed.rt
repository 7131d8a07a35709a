//! The feed of a run, who watches the run beside it, and what is noted of the nodes' times meanwhile.

ghost use Rattle.std.specs.Prelude.{◌≡◌, ◌≤◌, ◌<◌, ◌∷◌, [], ℕ, List, Option, length, take};
ghost use Rattle.std.specs.Io.KnownBytes.{Appends};
ghost use Rattle.job_times.specs.Timings.{times_of};
ghost use Rattle.listeners.specs.Listeners.{telling};
ghost use Rattle.run_results.specs.Sending.{SendsExactly};
ghost use Rattle.listeners.specs.Observing.{HasSeenMore};

use job_times::{Stopwatch, Timings};
use listeners::Observer;
use live::{LiveFeed, Outlet};
use plan_events::{Event, Texts};
use resource_locks::Plan;
use run_results::WriteFault;
use std::io::Write;

/// Knows what was noted of how long the nodes of a run took.
pub trait NotesTimes {
    ghost use Rattle.job_times.specs.Timings.{Times};

    /// The times that were noted.
    ghost noted: { Self → Times };

    /// The times that were noted, as they are printed.
    fn timings(&self) -> &Timings
        ensures { times_of result.now ≡ noted self.now };
}

/// A feed that is printed while the run goes on and notes its times, and one who watches the run. It is shown each
/// event before its line is printed.
#[derive(Drop)]
pub struct WatchedFeed<'w, 't, 's, 'v, W: Write, V: Observer, S: Stopwatch> {
    pub feed: LiveFeed<'w, 't, 's, W, S>,
    pub observer: &'v mut V,
}

impl<'w, 't, 's, 'v, W: Write, V: Observer, S: Stopwatch> WatchedFeed<'w, 't, 's, 'v, W, V, S> {
    /// How many bytes the feed's writer took.
    pub fn sent(&self) -> usize
        ensures { result ≡ self.now.feed.sent }
    {
        self.feed.sent()
    }

    /// How the feed's printing goes.
    pub fn outlet(&self) -> Outlet
        ensures { result ≡ self.now.feed.outlet }
    {
        self.feed.outlet()
    }

    /// Prints what is left of the whole output, as `LiveFeed::finish` does.
    pub fn finish(&mut self, whole: &[u8]) -> Result<(), WriteFault>
        requires fits { self.old.feed.sent ≤ length whole.now }
        requires short { self.old.feed.outlet ≡ Outlet.Failed → self.old.feed.sent < length whole.now }
        ensures same { self.new.feed.writer.ghost_name ≡ self.old.feed.writer.ghost_name }
        ensures timings { self.new.feed.timings ≡ self.old.feed.timings }
        ensures observer { self.new.observer ≡ self.old.observer }
        ensures whole { (first : Option (List ℕ)) → Appends first (W.contents self.old.feed.writer.now)
            (take self.old.feed.sent whole.now) → SendsExactly first (W.contents self.new.feed.writer.now) whole.now
            result }
    {
        self.feed.finish(whole)
    }
}

/// Shows a observer this event of the plan.
pub fn show<V: Observer>(observer: &mut V, plan: &Plan, texts: &Texts, event: Event)
    ensures { HasSeenMore V.saw plan.now (telling texts.now event ∷ []) observer.old observer.new }
{
    observer.see(plan, texts, event);
}

impl<'w, 't, 's, 'v, W: Write, V: Observer, S: Stopwatch> NotesTimes
    for WatchedFeed<'w, 't, 's, 'v, W, V, S> {
    ghost noted = { λ watched. times_of watched.feed.timings.now };

    fn timings(&self) -> &Timings {
        self.feed.timings()
    }
}

impl<'w, 't, 's, 'v, W: Write, V: Observer, S: Stopwatch> Observer
    for WatchedFeed<'w, 't, 's, 'v, W, V, S> {
    ghost use Rattle.run_outputs.specs.Beside.{SeesBeside};

    ghost saw = { SeesBeside W.contents V.saw };

    fn see(&mut self, plan: &Plan, texts: &Texts, event: Event) {
        let event = &event;
        show(&mut *self.observer, plan, texts, *event);
        show(&mut self.feed, plan, texts, *event);
    }

    fn idle(&mut self) {
        self.observer.idle();
        self.feed.idle();
    }
}
