//! The tests of a run that have started and not finished and have a limit, and which of them run longer.

ghost use Rattle.std.specs.Prelude.{◌≡◌, ◌⊎◌, ◌<◌, ◌≤◌, ◌*◌, ◌==◌, ◌++◌, [], not, IfOk, IfSome, IsNone, OnOk, length, string_bytes};
ghost use Rattle.std.specs.List.{HoldsAt, filter};
ghost use Rattle.descriptor.specs.Nodes.{size};
ghost use Rattle.live.specs.RunningTests.{name_in};
ghost use Rattle.live.specs.SlowNaming.{IsOfNode, MayAdd, NotesBy, Slow, TakesOut, seconds_text, slow_line};

use crate::running::{is_plain_test, name_of};
use crate::shown::push_shown;
use descriptor::{BodyId, NodeId};
use job_times::JobTimes;
use plan_events::{Event, EventKind};
use resource_locks::Plan;
use std::alloc::{AllocError, Global};
use std::time::Clock;

/// A test that has started and not finished, and has a limit.
#[derive(Drop)]
pub struct LimitedTest {
    pub node: NodeId,
    /// The number of its job.
    pub body: BodyId,
    /// For how many milliseconds it may run before it is named.
    pub limit: u32,
    /// Its name, and that of the node above it.
    pub name: String,
}

impl LimitedTest {
    /// For how many microseconds it has been running, if these are its limit at least.
    fn slow_for<C: Clock>(&self, times: &JobTimes<'_, C>) -> Option<u64>
        ensures { IfSome result (λ time. self.now.limit * 1000 ≤ time) }
    {
        let time = times.running_for(self.body)?;
        if time < u64::from(self.limit) * 1000 {
            return None;
        }
        Some(time)
    }
}

/// A test that runs longer than its limit, and for how many microseconds it has been running.
#[derive(Drop)]
struct SlowTest {
    test: LimitedTest,
    time: u64,
}

/// Appends microseconds as seconds with three places.
fn push_seconds(text: &mut String, time: u64) -> Result<(), AllocError>
    ensures { OnOk result (string_bytes text.new ≡ string_bytes text.old ++ seconds_text time) }
{
    let seconds = time / 1_000_000;
    let tenths = time / 100_000 % 10;
    let hundredths = time / 10_000 % 10;
    let thousandths = time / 1_000 % 10;
    write!(text, "{seconds}.{tenths}{hundredths}{thousandths}")
}

/// The line of a test that runs longer than its limit, behind this.
fn slow_text(alloc: Global, front: &str, slow: &SlowTest) -> Result<String, AllocError>
    ensures { IfOk result (λ text. string_bytes text ≡ front.now ++ slow_line (record {
      node = slow.now.test.node;
      name = string_bytes slow.now.test.name;
      time = slow.now.time;
      limit = slow.now.test.limit;
    })) }
{
    let mut text = String::from_str(alloc, front)?;
    text.push_str("slow: ")?;
    push_shown(&mut text, slow.test.name.as_str())?;
    text.push_str(" has been running for ")?;
    push_seconds(&mut text, slow.time)?;
    let limit = slow.test.limit;
    writeln!(text, " s (limit {limit} ms)")?;
    Ok(text)
}

/// The test that a node is, if its job has a limit.
fn limited_test<C: Clock>(
    alloc: Global,
    plan: &Plan,
    node: NodeId,
    times: &JobTimes<'_, C>,
) -> Option<LimitedTest>
    requires above_zero { 0 < node }
    requires inside { node < size plan.now.tree }
    ensures { IfSome result (IsOfNode plan.now.tree node) }
{
    let body = plan.tree().body(node)?;
    let limit = times.limit(body)?;
    let name = name_of(alloc, plan, node).ok()?;
    Some(LimitedTest {
        node,
        body,
        limit,
        name,
    })
}

/// The tests that have started and not finished, have a limit, and were not named: one that is named is
/// taken out. One for which there is no memory is not named.
#[derive(Drop)]
pub struct SlowTests {
    alloc: Global,
    pub tests: Vec<LimitedTest>,
}

impl SlowTests {
    /// No test has started.
    pub fn new(alloc: Global) -> SlowTests
        ensures { result.tests.items ≡ [] }
    {
        SlowTests {
            alloc,
            tests: Vec::new(alloc),
        }
    }

    /// Takes note of a test that started.
    fn begin<C: Clock>(&mut self, plan: &Plan, node: NodeId, times: &JobTimes<'_, C>)
        requires above_zero { 0 < node }
        requires inside { node < size plan.now.tree }
        ensures { MayAdd plan.now.tree node self.old.tests.items self.new.tests.items }
    {
        if let Some(test) = limited_test(self.alloc, plan, node, times) {
            let _ = self.tests.push(test);
        }
    }

    /// Takes out the test that finished.
    fn end(&mut self, node: NodeId)
        ensures { self.new.tests.items ≡ filter (λ t. not (node == t.node)) self.old.tests.items }
    {
        if self.tests.is_empty() {
            return;
        }
        self.tests.retain(|test| node != test.node);
    }

    /// Takes note of an event that was told.
    pub fn note<C: Clock>(&mut self, plan: &Plan, event: Event, times: &JobTimes<'_, C>)
        ensures { NotesBy event.kind plan.now.tree event.node self.old.tests.items self.new.tests.items }
    {
        match event.kind {
            EventKind::Started => {
                if is_plain_test(plan, event.node) {
                    self.begin(plan, event.node, times);
                }
            }
            EventKind::Finished => self.end(event.node),
            EventKind::Skipped | EventKind::Registered => {}
        }
    }

    /// Where a test stands that runs longer than its limit, and for how many microseconds it has been running.
    fn due<C: Clock>(&self, times: &JobTimes<'_, C>) -> Option<(usize, u64)>
        ensures inside { IfSome result (λ due. due.0 < length self.now.tests.items) }
        ensures slow { IfSome result (λ due. HoldsAt (λ t. t.limit * 1000 ≤ due.1) self.now.tests.items due.0) }
    {
        for place in 0..self.tests.len() {
            if let Some(time) = self.tests[place].slow_for(times) {
                return Some((place, time));
            }
        }
        None
    }

    /// Takes out a test that runs longer than its limit, if there is one.
    fn take_slow<C: Clock>(&mut self, times: &JobTimes<'_, C>) -> Option<SlowTest>
        ensures some { IfSome result (λ slow. TakesOut (record {
          node = slow.test.node;
          name = string_bytes slow.test.name;
          time = slow.time;
          limit = slow.test.limit;
        })
            self.old.tests.items self.new.tests.items) }
        ensures none { IsNone result → self.new.tests.items ≡ self.old.tests.items }
    {
        let (place, time) = self.due(times)?;
        let test = self.tests.remove(place);
        Some(SlowTest { test, time })
    }

    /// The line of a test that runs longer than its limit and was not named, behind this, if there is one
    /// and there is memory for it.
    pub fn next_line<C: Clock>(&mut self, times: &JobTimes<'_, C>, front: &str) -> Option<String>
        ensures some { IfSome result (λ text. (slow : Slow) × TakesOut slow self.old.tests.items self.new.tests.items
            × (string_bytes text ≡ front.now ++ slow_line slow)) }
        ensures none { IsNone result → (self.new.tests.items ≡ self.old.tests.items)
            ⊎ ((slow : Slow) × TakesOut slow self.old.tests.items self.new.tests.items) }
    {
        let slow = self.take_slow(times)?;
        slow_text(self.alloc, front, &slow).ok()
    }
}
