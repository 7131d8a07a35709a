//! A tree of tests with their bodies.

ghost use Rattle.std.specs.Prelude.{◌≡◌, true};
ghost use Rattle.resource_locks.specs.Spares.{HasBareSpares};
ghost use Rattle.test_bodies.specs.Bodies.{is_spent};
ghost use Rattle.test_tree.specs.Jobs.{HasJobs, are_fresh, is_fresh_or_none};

use crate::marks::Marks;
use config_params::Params;
use descriptor::{BodyId, NodeLimit, TreeBuilder};
use run_table::Jobs;
use std::alloc::Global;
use test_bodies::Body;

/// Tests that are built: a tree that grows at its end, the bodies of its nodes, and what is said of the configuration.
/// What is declared is of the next node that is added. A call that is refused leaves them as they were.
#[derive(Drop)]
pub struct Tests {
    pub(crate) alloc: Global,
    // how many nodes the tree may have
    pub(crate) node_limit: NodeLimit,
    pub(crate) tree: TreeBuilder,
    pub(crate) jobs: Jobs<Body>,
    pub(crate) properties: Params,
    pub(crate) marks: Marks,
    // from how many milliseconds on a body is slow; one for which there was no memory is not there
    pub(crate) limits: Vec<(BodyId, u32)>,
    // the body of the next node
    pub(crate) body: Option<Body>,
    // each node has its bodies, and none was run
    ghost has: { HasJobs tree jobs.items },
    ghost fresh: { are_fresh is_spent jobs.items ≡ true },
    ghost unspent: { is_fresh_or_none is_spent body ≡ true },
    // no dynamic test holds a key, so that a run never gets stuck
    ghost bare: { HasBareSpares tree },
}
