//! A observer that names the tests that run longer than their limit.

ghost use Rattle.std.specs.Prelude.{◌≡◌};
ghost use Rattle.live.specs.SlowNames.{NamesNext};
ghost use Rattle.live.specs.SlowNaming.{NotesBy};

use crate::handing::hand_on;
use crate::slow_tests::SlowTests;
use job_times::JobTimes;
use listeners::Observer;
use plan_events::{Event, Texts};
use resource_locks::Plan;
use std::io::Write;
use std::time::Clock;

/// Writes a line for each test that runs longer than its limit, one at each moment, and shows the run to
/// another. A writer that fails is left alone from then on. The tests are noted in a list that it was lent.
/// No clause says what the other saw.
#[derive(Drop)]
pub struct SlowLines<'e, 'c, 's, 'o, E: Write, C: Clock, V: Observer> {
    errors: &'e mut E,
    // whether nothing more is written
    is_over: bool,
    times: &'s JobTimes<'c, C>,
    tests: &'s mut SlowTests,
    other: &'o mut V,
}

impl<'e, 'c, 's, 'o, E: Write, C: Clock, V: Observer> SlowLines<'e, 'c, 's, 'o, E, C, V> {
    /// Nothing has happened yet, and nothing is written. It is lent an empty list for what runs.
    pub fn new(
        errors: &'e mut E,
        times: &'s JobTimes<'c, C>,
        tests: &'s mut SlowTests,
        other: &'o mut V,
    ) -> SlowLines<'e, 'c, 's, 'o, E, C, V>
        ensures same { result.errors.ghost_name ≡ errors.entry.ghost_name }
        ensures errors { result.errors.now ≡ errors.old }
    {
        SlowLines {
            errors,
            is_over: false,
            times,
            tests,
            other,
        }
    }

    /// Shows the other an event, and takes note of a test that started or finished.
    fn note(&mut self, plan: &Plan, texts: &Texts, event: Event)
        ensures errors { self.new.errors ≡ self.old.errors }
        ensures over { self.new.is_over ≡ self.old.is_over }
        ensures tests { NotesBy event.kind plan.now.tree event.node self.old.tests.now.tests.items
            self.new.tests.now.tests.items }
    {
        let event = &event;
        self.other.see(plan, texts, *event);
        self.tests.note(plan, *event, self.times);
    }

    /// Names a test that runs longer than its limit, if there is one.
    fn name_next(&mut self)
        ensures { NamesNext E.contents self.old self.new }
    {
        if self.is_over {
            return;
        }
        // mostly no test has a limit
        if self.tests.tests.is_empty() {
            return;
        }
        if let Some(line) = self.tests.next_line(self.times, "") {
            self.is_over = !hand_on(&mut *self.errors, line.as_str());
        }
    }
}

impl<'e, 'c, 's, 'o, E: Write, C: Clock, V: Observer> Observer
    for SlowLines<'e, 'c, 's, 'o, E, C, V> {
    ghost use Rattle.live.specs.SlowNames.{HasNamed};

    ghost saw = { HasNamed E.contents };

    fn see(&mut self, plan: &Plan, texts: &Texts, event: Event) {
        self.note(plan, texts, event);
        self.name_next();
    }

    fn idle(&mut self) {
        self.other.idle();
        self.name_next();
    }
}
