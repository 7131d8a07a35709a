//! What is run for a node.

ghost use Rattle.std.specs.Prelude.{◌≡◌, ◌<◌};
ghost use Rattle.descriptor.specs.Nodes.{size};
ghost use Rattle.event_history.specs.Plans.{sort_by};
ghost use Rattle.event_history.specs.Results.{jobs_by as jobs_by_sort, jobs_of as jobs_of_node};
ghost use Rattle.scheduling.specs.Jobs.{as_jobs};

use crate::choices::after_run;
use descriptor::{BodyId, Kind, NodeId, Role};
use resource_locks::Plan;

/// What is run for a node.
#[derive(Clone, Copy)]
pub enum NodeJobs {
    /// Nothing.
    Nothing,
    /// A body alone.
    Alone(BodyId),
    /// The body of a factory with so many spares.
    Pulled(BodyId, usize),
    /// A container's body before its children, and after them its after-body.
    Around(Option<BodyId>, Option<BodyId>),
}

/// What is run for a node of this kind and role, with this body, this after-body that is run and so many spares.
fn jobs_by(
    kind: Kind,
    role: Role,
    body: Option<BodyId>,
    after: Option<BodyId>,
    spares: usize,
) -> NodeJobs
    ensures { as_jobs result ≡ jobs_by_sort (sort_by kind role) body after spares }
{
    match (kind, role, body) {
        (Kind::Test, _, Some(body)) => NodeJobs::Alone(body),
        (Kind::Test, _, None) => NodeJobs::Nothing,
        (_, Role::Factory, Some(body)) => NodeJobs::Pulled(body, spares),
        (_, Role::Factory, None) => NodeJobs::Nothing,
        (_, Role::Plain | Role::Spare, body) => NodeJobs::Around(body, after),
    }
}

/// What is run for a node.
pub fn jobs_of(plan: &Plan, node: NodeId) -> NodeJobs
    requires { node < size plan.now.tree }
    ensures { as_jobs result ≡ jobs_of_node plan.now node }
{
    let tree = plan.tree();
    // the children of a factory are its spares
    let spares = tree.children(node).len();
    jobs_by(
        tree.kind(node),
        tree.role(node),
        tree.body(node),
        after_run(plan, node),
        spares,
    )
}
