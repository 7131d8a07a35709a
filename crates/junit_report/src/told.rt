//! What became of each node, by what events tell of it.

ghost use Rattle.std.specs.Prelude.{◌≡◌};
ghost use Rattle.run_results.specs.Told.{told_at};
ghost use Rattle.junit_report.specs.Told.{badness, end_by, end_of, is_failure, is_pass};

use descriptor::NodeId;
use plan_events::Status;
use run_results::NodeEvents;

/// What became of a node.
#[derive(Clone, Copy)]
pub(crate) enum NodeEnd {
    Passed,
    Failed,
    Aborted,
    Skipped,
    /// Neither skipped itself nor finished, as a test below a class that was skipped.
    NotRun,
}

impl NodeEnd {
    pub(crate) fn is_pass(self) -> bool
        ensures { result ≡ is_pass self }
    {
        matches!(self, NodeEnd::Passed)
    }

    pub(crate) fn is_failure(self) -> bool
        ensures { result ≡ is_failure self }
    {
        matches!(self, NodeEnd::Failed)
    }

    /// How bad that is, from 0.
    pub(crate) fn badness(self) -> u8
        ensures { result ≡ badness self }
    {
        match self {
            NodeEnd::Passed | NodeEnd::NotRun => 0,
            NodeEnd::Skipped | NodeEnd::Aborted => 1,
            NodeEnd::Failed => 2,
        }
    }
}

/// What became of a node that was not skipped.
fn end_by(status: Option<Status>) -> NodeEnd
    ensures { result ≡ end_by status }
{
    match status {
        None => NodeEnd::NotRun,
        Some(Status::Successful) => NodeEnd::Passed,
        Some(Status::Aborted) => NodeEnd::Aborted,
        Some(Status::Failed) => NodeEnd::Failed,
    }
}

/// What became of a node of which this is told.
pub(crate) fn end_of(told: NodeEvents) -> NodeEnd
    ensures { result ≡ end_of told }
{
    if told.skipped {
        NodeEnd::Skipped
    } else {
        end_by(told.status)
    }
}

/// What is told of a node; nothing of one that has no place.
pub(crate) fn told_at(told: &[NodeEvents], node: NodeId) -> NodeEvents
    ensures { result ≡ told_at told.now node }
{
    match told.get(node.index()) {
        Some(one) => *one,
        None => NodeEvents::NOTHING,
    }
}
