//! Calls `descriptor`: a tree is built.

ghost use Rattle.std.specs.Prelude.{◌≡◌, [], ◌∷◌, IfOk};
ghost use Rattle.descriptor.specs.Nodes.{IsTree, appended, children_of, plan_alone};

use descriptor::{Node, NodeId, NodeLimit, Tree, TreeBuilder, TreeFault};
use std::alloc::Global;

/// The tree of the plan, which is node 0, and an engine, which is node 1.
pub fn one_engine(alloc: Global, engine: Node) -> Result<Tree, TreeFault>
    ensures same { IfOk result (λ tree. tree ≡ appended plan_alone 0 engine) }
    ensures child { IfOk result (λ tree. children_of tree 0 ≡ 1 ∷ []) }
    ensures tree { IfOk result (λ tree. IsTree tree) }
{
    let mut builder = TreeBuilder::new(alloc)?;
    builder.add(alloc, NodeLimit::usual(), NodeId::ROOT, engine)?;
    Ok(builder.finish())
}
