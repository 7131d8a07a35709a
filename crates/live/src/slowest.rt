//! The tests that took longest.

ghost use Rattle.std.specs.Prelude.{◌≡◌, ◌≤◌, ◌++◌, OnOk, IfOk, length, string_bytes, take};
ghost use Rattle.std.specs.List.{flat_map, insert};
ghost use Rattle.live.specs.Slowest.{is_timed, placed, slow_lines, slowest_lines, slowest_of, timed_tests};

use crate::running::is_plain_test;
use crate::shown::push_shown;
use descriptor::NodeId;
use job_times::Timings;
use reports::{id_of, name_of, push_seconds, time_or_none};
use resource_locks::Plan;
use std::alloc::{AllocError, Global};

/// How many tests are told of at most.
const MOST_TOLD: usize = 10;

/// Tests of which it is known how long they took.
#[derive(Drop)]
struct TimedTests {
    /// The slowest, in the order in which they are told of.
    slowest: Vec<NodeId>,
    /// How many there are.
    all: usize,
}

/// Whether a node is a test that holds no other node, and it is known how long it took.
fn is_timed(plan: &Plan, timings: &Timings, node: NodeId) -> bool
    ensures { result ≡ is_timed plan.now.tree timings.now.took.items node }
{
    is_plain_test(plan, node) && timings.of_node(node).is_some()
}

/// The place of a node among nodes of which the slowest stands first.
fn place_of(tests: &[NodeId], timings: &Timings, node: NodeId) -> usize
    ensures inside { result ≤ length tests.now }
    ensures placed { insert tests.now result node ≡ placed timings.now.took.items node tests.now }
{
    let time = time_or_none(timings, node);
    let mut place = 0;
    for test in tests {
        if time_or_none(timings, *test) < time {
            return place;
        }
        place += 1;
    }
    place
}

/// Puts a test in its place among the slowest, of which so many are kept as are told of.
fn keep(slowest: &mut Vec<NodeId>, timings: &Timings, node: NodeId) -> Result<(), AllocError>
    ensures { OnOk result (slowest.new.items ≡ take 10 (placed timings.now.took.items node slowest.old.items)) }
{
    let place = place_of(slowest.as_slice(), timings, node);
    slowest.insert(place, node)?;
    slowest.truncate(MOST_TOLD);
    Ok(())
}

/// The tests of a plan of which it is known how long they took.
fn timed_tests(alloc: Global, plan: &Plan, timings: &Timings) -> Result<TimedTests, AllocError>
    ensures slowest { IfOk result (λ tests. tests.slowest.items ≡ take 10 (timed_tests plan.now.tree timings.now.took.items)) }
    ensures all { IfOk result (λ tests. tests.all ≡ length (timed_tests plan.now.tree timings.now.took.items)) }
{
    let mut slowest = Vec::new(alloc);
    let mut all = 0;
    for number in 0..plan.tree().len() {
        let node = NodeId::new(number as u16);
        if !is_timed(plan, timings, node) {
            continue;
        }
        keep(&mut slowest, timings, node)?;
        all += 1;
    }
    Ok(TimedTests { slowest, all })
}

/// Appends the lines of a test.
fn push_test(
    text: &mut String,
    plan: &Plan,
    timings: &Timings,
    node: NodeId,
) -> Result<(), AllocError>
    ensures { OnOk result (string_bytes text.new ≡ string_bytes text.old
        ++ slow_lines plan.now timings.now.took.items node) }
{
    text.push_str("  ")?;
    push_seconds(text, u128::from(time_or_none(timings, node)))?;
    text.push_str(" s  ")?;
    push_shown(text, name_of(plan.tree(), node))?;
    text.push_str("\n    ")?;
    push_shown(text, id_of(plan, node))?;
    text.push_str("\n")
}

/// Appends the lines of these tests.
fn push_tests(
    text: &mut String,
    plan: &Plan,
    timings: &Timings,
    tests: &[NodeId],
) -> Result<(), AllocError>
    ensures { OnOk result (string_bytes text.new ≡ string_bytes text.old
        ++ flat_map (slow_lines plan.now timings.now.took.items) tests.now) }
{
    for test in tests {
        push_test(text, plan, timings, *test)?;
    }
    Ok(())
}

/// Appends the lines of these tests, of so many, under a title.
fn push_slowest(
    text: &mut String,
    plan: &Plan,
    timings: &Timings,
    tests: &[NodeId],
    all: usize,
) -> Result<(), AllocError>
    ensures { OnOk result (string_bytes text.new ≡ string_bytes text.old
        ++ slowest_lines plan.now timings.now.took.items tests.now all) }
{
    let told = tests.len();
    writeln!(text, "Slowest ({told} of {all}):")?;
    push_tests(text, plan, timings, tests)
}

/// The ten tests that took longest, the slowest first: how long each took, its name and its unique
/// id, under a line that says of how many tests this is known. Nothing if of none.
pub fn slowest_text(alloc: Global, plan: &Plan, timings: &Timings) -> Result<String, AllocError>
    ensures { IfOk result (λ text. string_bytes text ≡ slowest_of plan.now timings.now.took.items) }
{
    let tests = timed_tests(alloc, plan, timings)?;
    if tests.all == 0 {
        return Ok(String::new(alloc));
    }
    let mut text = String::new(alloc);
    push_slowest(
        &mut text,
        plan,
        timings,
        tests.slowest.as_slice(),
        tests.all,
    )?;
    Ok(text)
}
