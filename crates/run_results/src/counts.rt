//! How many containers and tests there are, and what became of them.

ghost use Rattle.std.specs.Prelude.{◌≡◌, ◌<◌, ◌≤◌, ◌&&◌, ◌++◌, length};
ghost use Rattle.descriptor.specs.Kinds.{is_container, is_test};
ghost use Rattle.descriptor.specs.Nodes.{bit};
ghost use Rattle.run_results.specs.Counts.{is_counted, is_found, is_lost, counts_as_skipped, six, counts_below};
ghost use Rattle.run_results.specs.Counts.{FollowParents};

use crate::node_places::NodePlace;
use crate::told::NodeEvents;

/// The counts of containers, or those of tests.
#[derive(Clone, Copy)]
pub struct SortCounts {
    /// Those that are no spares, and the spares that were registered.
    pub found: u32,
    /// Those that were skipped, and all below them but spares.
    pub skipped: u32,
    pub started: u32,
    pub aborted: u32,
    pub successful: u32,
    pub failed: u32,
}

/// The counts of containers and those of tests. A node that is both counts in both.
#[derive(Clone, Copy)]
pub(crate) struct Counts {
    pub(crate) containers: SortCounts,
    pub(crate) tests: SortCounts,
}

impl Counts {
    /// Those of containers, then those of tests: found, skipped, started, aborted, successful and failed.
    pub(crate) fn twelve(self) -> [u32; 12]
        ensures { result ≡ six self.containers ++ six self.tests }
    {
        let Counts { containers, tests } = self;
        [
            containers.found,
            containers.skipped,
            containers.started,
            containers.aborted,
            containers.successful,
            containers.failed,
            tests.found,
            tests.skipped,
            tests.started,
            tests.aborted,
            tests.successful,
            tests.failed,
        ]
    }
}

impl SortCounts {
    ghost use Rattle.run_results.specs.Counts.{counts_with, AreAtMost};

    /// The counts of no nodes, to which those of each node are added.
    const NONE: SortCounts = SortCounts {
        found: 0,
        skipped: 0,
        started: 0,
        aborted: 0,
        successful: 0,
        failed: 0,
    };

    /// Adds a node, if it is counted.
    fn add(&mut self, counted: bool, told: NodeEvents, found: bool, lost: bool)
        requires { AreAtMost self.old 16384 }
        ensures { self.new ≡ counts_with self.old counted told found lost }
    {
        self.found += one_if(counted, found);
        self.skipped += one_if(counted, lost);
        self.started += one_if(counted, told.started);
        self.aborted += one_if(counted, told.has_aborted());
        self.successful += one_if(counted, told.is_successful());
        self.failed += one_if(counted, told.has_failed());
    }
}

fn one_if(counted: bool, passes: bool) -> u32
    ensures { result ≡ bit (counted && passes) }
{
    if counted && passes { 1 } else { 0 }
}

/// Whether the node counts as a container; node 0 does not.
fn counts_as_container(outline: &[NodePlace], node: usize) -> bool
    requires { node < length outline.now }
    ensures { result ≡ is_counted is_container outline.now node }
{
    node > 0 && outline[node].kind.is_container()
}

/// Whether the node counts as a test; node 0 does not.
fn counts_as_test(outline: &[NodePlace], node: usize) -> bool
    requires { node < length outline.now }
    ensures { result ≡ is_counted is_test outline.now node }
{
    node > 0 && outline[node].kind.is_test()
}

/// Whether the node was skipped, or a node that it is below.
fn is_lost(outline: &[NodePlace], told: &[NodeEvents], node: usize) -> bool
    requires node { node < length outline.now }
    requires told { length told.now ≡ length outline.now }
    requires parents { FollowParents outline.now }
    ensures { result ≡ is_lost outline.now told.now node }
{
    let mut current = node;
    while !told[current].skipped {
        if current == 0 {
            return false;
        }
        current = outline[current].parent.index();
    }
    true
}

/// Whether the node counts as skipped: a spare where it was itself, any other node also where one that it is below was.
fn counts_as_skipped(outline: &[NodePlace], told: &[NodeEvents], node: usize) -> bool
    requires node { node < length outline.now }
    requires told { length told.now ≡ length outline.now }
    requires parents { FollowParents outline.now }
    ensures { result ≡ counts_as_skipped outline.now told.now node }
{
    if outline[node].spare {
        told[node].skipped
    } else {
        is_lost(outline, told, node)
    }
}

/// Whether the node is found: it is no spare, or it was registered.
fn is_found(outline: &[NodePlace], told: &[NodeEvents], node: usize) -> bool
    requires node { node < length outline.now }
    requires told { length told.now ≡ length outline.now }
    ensures { result ≡ is_found outline.now told.now node }
{
    !outline[node].spare || told[node].registered
}

/// What there is of each sort, and what became of it. It takes no memory.
pub(crate) fn count(outline: &[NodePlace], told: &[NodeEvents]) -> Counts
    requires few { length outline.now ≤ 16384 }
    requires told { length told.now ≡ length outline.now }
    requires parents { FollowParents outline.now }
    ensures containers { result.containers ≡ counts_below is_container outline.now told.now (length outline.now) }
    ensures tests { result.tests ≡ counts_below is_test outline.now told.now (length outline.now) }
{
    let mut containers = SortCounts::NONE;
    let mut tests = SortCounts::NONE;
    for index in 0..outline.len() {
        let lost = counts_as_skipped(outline, told, index);
        let found = is_found(outline, told, index);
        containers.add(
            counts_as_container(outline, index),
            told[index],
            found,
            lost,
        );
        tests.add(counts_as_test(outline, index), told[index], found, lost);
    }
    Counts { containers, tests }
}
