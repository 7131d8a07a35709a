//! A observer that draws how far a run has come.

ghost use Rattle.std.specs.Prelude.{◌≡◌, ◌∷◌, [], true, false, IfOk, IfSome, string_bytes};
ghost use Rattle.std.specs.Time.{instant_nanos};
ghost use Rattle.listeners.specs.Listeners.{telling};
ghost use Rattle.listeners.specs.Observing.{HasSeenMore};
ghost use Rattle.live.specs.Failing.{HasKept};
ghost use Rattle.live.specs.RunningTests.{Follows, IsSaid};
ghost use Rattle.live.specs.Terminals.{Drawing, Drawn, IsDrawnOn, Line, drawing_of, is_done};

use crate::failures::Failures;
use crate::handing::hand_on;
use crate::running::Running;
use crate::slow_tests::SlowTests;
use crate::test_counts::{TestCounts, progress_line};
use job_times::JobTimes;
use listeners::{Listener, Observer, ends_plan};
use plan_events::{Event, Texts};
use resource_locks::Plan;
use run_results::Summary;
use std::alloc::{AllocError, Global};
use std::io::Write;
use std::time::{Clock, Duration, Instant};

/// How long a line stands at least before it is drawn anew, in milliseconds.
const SHORTEST: u64 = 100;

/// What a terminal takes as: go to the start of the line, and erase what stands behind.
const ERASING: &str = "\r\x1b[K";

/// What a terminal takes as: leave out what does not fit on the line. On two lines of a narrow
/// terminal only the last would be erased.
const WRAPPING_OFF: &str = "\x1b[?7l";

/// What it takes as: go on with that on the next line, as it does for all others.
const WRAPPING_ON: &str = "\x1b[?7h";

/// Draws how far a run has come on a line of a terminal, at most ten times a second, and erases it
/// when the plan is finished; a test that runs longer than its limit is named there on a line that stays.
/// The tests are counted in a summary that it was lent, the nodes that failed are kept in a list that it
/// was lent, and those that run in two others.
#[derive(Drop)]
pub struct Progress<'e, 'c, 's, 'f, E: Write, C: Clock> {
    alloc: Global,
    terminal: &'e mut E,
    clock: &'c C,
    begun: Option<Instant>,
    drawn: Option<Instant>,
    is_drawn: bool,
    // whether the line is drawn no more
    is_over: bool,
    // whether others print lines on the terminal, so that none may stand there when they do
    among_lines: bool,
    summary: &'s mut Summary,
    failures: &'f mut Failures,
    running: &'s mut Running,
    times: &'s JobTimes<'c, C>,
    slow: &'s mut SlowTests,
}

impl<'e, 'c, 's, 'f, E: Write, C: Clock> Progress<'e, 'c, 's, 'f, E, C> {
    /// Nothing has happened yet, and nothing is drawn. Where lines are printed on the terminal by
    /// others, each event erases the line. It is lent an empty summary, a list for what fails, and empty
    /// ones for what runs, and for what of it has a limit by these times.
    pub fn new(
        alloc: Global,
        terminal: &'e mut E,
        clock: &'c C,
        among_lines: bool,
        summary: &'s mut Summary,
        failures: &'f mut Failures,
        running: &'s mut Running,
        times: &'s JobTimes<'c, C>,
        slow: &'s mut SlowTests,
    ) -> Progress<'e, 'c, 's, 'f, E, C>
        ensures same { result.terminal.ghost_name ≡ terminal.entry.ghost_name }
        ensures terminal { result.terminal.now ≡ terminal.old }
    {
        let begun = Instant::now(clock).ok();
        Progress {
            alloc,
            terminal,
            clock,
            begun,
            drawn: begun,
            is_drawn: false,
            is_over: false,
            among_lines,
            summary,
            failures,
            running,
            times,
            slow,
        }
    }

    /// Hands this to the terminal; one that fails is left alone from then on.
    fn show(&mut self, text: &str)
        requires going { is_done self.old ≡ false }
        ensures drawn { (drawing : Drawing) → text.now ≡ drawing_of drawing →
            IsDrawnOn E.contents self.old self.new }
        ensures failures { self.new.failures ≡ self.old.failures }
        ensures running { self.new.running ≡ self.old.running }
    {
        if !hand_on(&mut *self.terminal, text) {
            self.is_over = true;
            self.is_drawn = false;
        }
    }

    /// Erases the line, if it is drawn.
    fn erase(&mut self)
        ensures drawn { IsDrawnOn E.contents self.old self.new }
        ensures failures { self.new.failures ≡ self.old.failures }
        ensures running { self.new.running ≡ self.old.running }
    {
        if self.is_drawn {
            self.show(ERASING);
            self.is_drawn = false;
        }
    }

    /// The line as it is to be drawn at this time, so many seconds after the beginning.
    fn line(&self, now: Instant, seconds: u64) -> Result<String, AllocError>
        ensures { IfOk result (λ text. (line : Line) × IsSaid self.now.running.now (instant_nanos now) line.longest
            × (string_bytes text ≡ drawing_of (Drawn line))) }
    {
        let tests = TestCounts::of(self.summary.counts());
        let mut line = progress_line(self.alloc, tests, seconds)?;
        self.running.push_longest(&mut line, now)?;
        format!(in self.alloc; "{ERASING}{WRAPPING_OFF}{line}{WRAPPING_ON}")
    }

    /// The line, if it is to be drawn anew: unless it was drawn a moment ago.
    fn next_line(&mut self) -> Option<String>
        ensures terminal { self.new.terminal ≡ self.old.terminal }
        ensures drawn { self.new.is_drawn ≡ self.old.is_drawn }
        ensures over { self.new.is_over ≡ self.old.is_over }
        ensures failures { self.new.failures ≡ self.old.failures }
        ensures running { self.new.running ≡ self.old.running }
        ensures line { IfSome result (λ text. (line : Line) × (string_bytes text ≡ drawing_of (Drawn line))) }
    {
        let (Some(begun), Some(drawn)) = (self.begun, self.drawn) else {
            return None;
        };
        let Ok(now) = Instant::now(self.clock) else {
            return None;
        };
        if now.duration_since(drawn) < Duration::from_millis(SHORTEST) {
            return None;
        }
        self.drawn = Some(now);
        let seconds = now.duration_since(begun).as_secs();
        self.line(now, seconds).ok()
    }

    /// Draws the line anew, unless it was drawn a moment ago.
    fn draw(&mut self)
        requires going { self.old.is_over ≡ false }
        ensures drawn { IsDrawnOn E.contents self.old self.new }
        ensures failures { self.new.failures ≡ self.old.failures }
        ensures running { self.new.running ≡ self.old.running }
    {
        if let Some(text) = self.next_line() {
            self.is_drawn = true;
            self.show(text.as_str());
        }
    }

    /// Names a test that runs longer than its limit, if there is one.
    fn name_slow(&mut self)
        ensures drawn { IsDrawnOn E.contents self.old self.new }
        ensures failures { self.new.failures ≡ self.old.failures }
        ensures running { self.new.running ≡ self.old.running }
    {
        if self.is_over {
            return;
        }
        if let Some(text) = self.slow.next_line(self.times, ERASING) {
            self.show(text.as_str());
            self.is_drawn = false;
        }
    }

    /// Erases the line where others print lines, and draws it anew where not.
    fn redraw(&mut self)
        ensures drawn { IsDrawnOn E.contents self.old self.new }
        ensures failures { self.new.failures ≡ self.old.failures }
        ensures running { self.new.running ≡ self.old.running }
    {
        if self.among_lines {
            self.erase();
        } else if !self.is_over {
            self.draw();
        }
    }

    /// Erases the line for good where the plan is finished.
    fn close(&mut self, is_finished: bool)
        ensures drawn { IsDrawnOn E.contents self.old self.new }
        ensures failures { self.new.failures ≡ self.old.failures }
        ensures running { self.new.running ≡ self.old.running }
    {
        if is_finished {
            self.erase();
            self.is_over = true;
        }
    }

    /// Counts an event. Where there is no memory for the counts nothing is drawn.
    fn count(&mut self, plan: &Plan, event: Event)
        ensures terminal { self.new.terminal ≡ self.old.terminal }
        ensures drawn { self.new.is_drawn ≡ self.old.is_drawn }
        ensures over { self.old.is_over ≡ true → self.new.is_over ≡ true }
        ensures failures { self.new.failures ≡ self.old.failures }
        ensures running { self.new.running ≡ self.old.running }
    {
        if self.summary.got().is_empty() && self.summary.prepare(plan).is_err() {
            self.is_over = true;
        }
        if self.summary.room() > 0 {
            self.summary.told(event, None);
        }
    }

    /// Takes note of a node that failed, and of a test that started or finished.
    fn note(&mut self, plan: &Plan, texts: &Texts, event: Event)
        ensures terminal { self.new.terminal ≡ self.old.terminal }
        ensures drawn { self.new.is_drawn ≡ self.old.is_drawn }
        ensures over { self.new.is_over ≡ self.old.is_over }
        ensures kept { HasSeenMore HasKept plan.now (telling texts.now event ∷ []) self.old.failures.now
            self.new.failures.now }
        ensures running { Follows plan.now.tree event self.old.running.now self.new.running.now }
    {
        let event = &event;
        self.failures.see(plan, texts, *event);
        self.slow.note(plan, *event, self.times);
        let now = Instant::now(self.clock).ok();
        self.running.note(plan, *event, now);
    }
}

impl<'e, 'c, 's, 'f, E: Write, C: Clock> Observer for Progress<'e, 'c, 's, 'f, E, C> {
    ghost use Rattle.live.specs.Terminals.{HasFollowed};

    ghost saw = { HasFollowed E.contents };

    fn see(&mut self, plan: &Plan, texts: &Texts, event: Event) {
        let event = &event;
        self.count(plan, *event);
        self.note(plan, texts, *event);
        self.name_slow();
        self.redraw();
        self.close(ends_plan(*event));
    }

    fn idle(&mut self) {
        self.name_slow();
        if !self.is_over {
            self.draw();
        }
    }
}
