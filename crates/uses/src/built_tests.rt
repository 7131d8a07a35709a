//! Calls `test_tree`: a test of one's own is built.

ghost use Rattle.std.specs.Prelude.{◌≡◌, IfOk};
ghost use Rattle.descriptor.specs.Nodes.{size};
ghost use Rattle.resource_locks.specs.Spares.{HasBareSpares};

use descriptor::{LockMode, Tree};
use std::alloc::Global;
use test_bodies::{Checked, check_same};
use test_tree::{BuildFault, Tests};

/// A test of one's own.
fn adds(_alloc: Global) -> Checked {
    check_same(&(1 + 1), &2)
}

/// The tree of one test in a class that reads a table: the plan, the engine, the class and the test. No dynamic test
/// holds a lock, so a run of it never gets stuck.
pub fn one_test(alloc: Global) -> Result<Tree, BuildFault>
    ensures nodes { IfOk result (λ tree. size tree ≡ 4) }
    ensures bare { IfOk result (λ tree. HasBareSpares tree) }
{
    let mut tests = Tests::new(alloc)?;
    let engine = tests.engine("sums")?;
    tests.lock("table", LockMode::Read)?;
    let class = tests.class(engine, "sums.Small")?;
    tests.test(class, "adds()", adds)?;
    let (tree, _properties, _jobs, _slow) = Box::into_inner(tests).into_parts()?;
    Ok(tree)
}
