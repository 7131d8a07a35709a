//! The tests of a run that have started and not finished, and which of them runs longest.

ghost use Rattle.std.specs.Prelude.{◌≡◌, ◌⊎◌, ◌<◌, ◌≤◌, ◌==◌, ◌++◌, ◌∷◌, ◌↔◌, [], not, true, IsTrue, IsFalse, IsNone, IfOk, IfSome, OnOk, Some, filter, string_bytes, ℕ, List, Option};
ghost use Rattle.std.specs.Time.{instant_nanos};
ghost use Rattle.descriptor.specs.Nodes.{size};
ghost use Rattle.live.specs.RunningTests.{Follows, IsLongest, IsSaid, Notes, as_said, began, is_plain_test};
ghost use Rattle.live.specs.RunningTests.{longest_part, name_in, nodes_of};

use crate::shown::push_shown;
use descriptor::NodeId;
use plan_events::{Event, EventKind};
use resource_locks::Plan;
use std::alloc::{AllocError, Global};
use std::time::Instant;

/// How many seconds a test has been running at least when it is named.
const LONG: u64 = 2;

/// A test that has started and not finished.
#[derive(Drop)]
pub struct RunningTest {
    pub node: NodeId,
    /// When it was told that the test started.
    pub since: Instant,
    /// Its name, and that of the node above it; `None` if there was no memory for it.
    pub name: Option<String>,
}

impl RunningTest {
    /// Whether it started before another.
    fn began_before(&self, other: &RunningTest) -> bool
        ensures before { IsTrue result → began self.now < began other.now }
        ensures no_earlier { IsFalse result → began other.now ≤ began self.now }
    {
        self.since.checked_duration_since(other.since).is_none()
    }
}

/// The test that runs longest, as it is named.
#[derive(Drop)]
pub struct Longest<'n> {
    pub name: &'n str,
    /// For how many seconds it has been running.
    pub seconds: u64,
}

/// Whether a node is a test that holds no other node. A test that does runs as long as these.
pub(crate) fn is_plain_test(plan: &Plan, node: NodeId) -> bool
    ensures { result ≡ is_plain_test plan.now.tree node }
{
    let tree = plan.tree();
    node.index() < tree.len() && !tree.kind(node).is_container()
}

/// The name of a test and that of the node above it.
pub(crate) fn name_of(alloc: Global, plan: &Plan, node: NodeId) -> Result<String, AllocError>
    requires above_zero { 0 < node }
    requires inside { node < size plan.now.tree }
    ensures { IfOk result (λ text. string_bytes text ≡ name_in plan.now.tree node) }
{
    let tree = plan.tree();
    let name = tree.node(node).name.as_str();
    match tree.parent(node) {
        Some(parent) if parent != NodeId::ROOT => {
            let above = tree.node(parent).name.as_str();
            format!(in alloc; "{name} in {above}")
        }
        _ => String::from_str(alloc, name),
    }
}

/// The one of these tests that runs longest: the first of those that started before all others.
fn longest_of<'t>(first: &'t RunningTest, others: &'t [RunningTest]) -> &'t RunningTest
    ensures { IsLongest (first.now ∷ others.now) result.now }
{
    let mut longest = first;
    for test in others {
        if test.began_before(longest) {
            longest = test;
        }
    }
    longest
}

/// Appends a test that runs long, as it is named.
fn push_named(text: &mut String, longest: &Longest<'_>) -> Result<(), AllocError>
    ensures { OnOk result (string_bytes text.new ≡ string_bytes text.old
        ++ longest_part (Some (longest.now.name.now, longest.now.seconds))) }
{
    let seconds = longest.seconds;
    write!(text, ", longest {seconds} s: ")?;
    push_shown(text, longest.name)
}

/// The tests that have started and not finished, in the order of their starts. If there is no memory
/// for one more, or the clock cannot be read, they are no longer all, and none is named from then on.
#[derive(Drop)]
pub struct Running {
    alloc: Global,
    pub tests: Vec<RunningTest>,
    pub are_all: bool,
}

impl Running {
    /// No test has started.
    pub fn new(alloc: Global) -> Running
        ensures none { result.tests.items ≡ [] }
        ensures all { result.are_all ≡ true }
    {
        Running {
            alloc,
            tests: Vec::new(alloc),
            are_all: true,
        }
    }

    /// Takes in one test more.
    fn take_in(&mut self, test: RunningTest)
        ensures all { self.new.are_all ≡ true → self.old.are_all ≡ true }
        ensures nodes { self.new.are_all ≡ true → self.new.tests.items ≡ self.old.tests.items ++ test ∷ [] }
        ensures lost { (self.new.tests.items ≡ self.old.tests.items)
            ⊎ (self.new.tests.items ≡ self.old.tests.items ++ test ∷ []) }
    {
        if self.tests.push(test).is_err() {
            self.are_all = false;
        }
    }

    /// Takes note of a test that started.
    fn begin(&mut self, plan: &Plan, node: NodeId, now: Option<Instant>)
        requires above_zero { 0 < node }
        requires inside { node < size plan.now.tree }
        ensures { Notes plan.now.tree (nodes_of self.old.tests.items ++ node ∷ []) self.old self.new }
    {
        match now {
            Some(since) => {
                let name = name_of(self.alloc, plan, node).ok();
                self.take_in(RunningTest { node, since, name });
            }
            None => self.are_all = false,
        }
    }

    /// Takes out the test that finished.
    fn end(&mut self, node: NodeId)
        ensures all { self.new.are_all ≡ self.old.are_all }
        ensures tests { self.new.tests.items ≡ filter (λ t. not (node == t.node)) self.old.tests.items }
    {
        self.tests.retain(|test| node != test.node);
    }

    /// Takes note of an event that was told at this time, if the clock could be read.
    pub fn note(&mut self, plan: &Plan, event: Event, now: Option<Instant>)
        ensures { Follows plan.now.tree event self.old self.new }
    {
        match event.kind {
            EventKind::Started => {
                if is_plain_test(plan, event.node) {
                    self.begin(plan, event.node, now);
                }
            }
            EventKind::Finished => self.end(event.node),
            EventKind::Skipped | EventKind::Registered => {}
        }
    }

    /// The test that runs longest.
    fn longest(&self) -> Option<&RunningTest>
        ensures none { IsNone result ↔ (self.now.tests.items ≡ []) }
        ensures longest { IfSome result (λ test. IsLongest self.now.tests.items test.now) }
    {
        let (first, others) = self.tests.as_slice().split_first()?;
        Some(longest_of(first, others))
    }

    /// The test that runs longest, with the seconds that it has been running at this time, if these
    /// are two at least.
    pub fn longest_at(&self, now: Instant) -> Option<Longest<'_>>
        ensures { IsSaid self.now (instant_nanos now) (as_said result) }
    {
        let test = self.longest()?;
        let seconds = now.duration_since(test.since).as_secs();
        if !self.are_all || seconds < LONG {
            return None;
        }
        let name = test.name.as_ref()?.as_str();
        Some(Longest { name, seconds })
    }

    /// Appends what the line says at this time of the test that runs longest, if it names one.
    pub(crate) fn push_longest(&self, text: &mut String, now: Instant) -> Result<(), AllocError>
        ensures { OnOk result ((said : Option (List ℕ × ℕ)) × IsSaid self.now (instant_nanos now) said
            × (string_bytes text.new ≡ string_bytes text.old ++ longest_part said)) }
    {
        match self.longest_at(now) {
            Some(longest) => push_named(text, &longest),
            None => Ok(()),
        }
    }
}
