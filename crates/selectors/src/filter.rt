//! The tag filter: which nodes the include and exclude expressions keep.

ghost use Rattle.std.specs.Prelude.{◌≡◌, ◌<◌, IfOk};
ghost use Rattle.descriptor.specs.Nodes.{size, IsTree};
ghost use Rattle.tag_expr.specs.Expressions.{together};
ghost use Rattle.selectors.specs.Filters.{tags_together, any_true, keeps};

use descriptor::{NodeId, Tree};
use std::alloc::{AllocError, Global};
use tag_expr::{TagExpr, TagSet};

/// The tags of the node and of each node that it is below, at most 64 sets.
fn tags_up(alloc: Global, tree: &Tree, node: NodeId) -> Result<Vec<&TagSet>, AllocError>
    requires tree { IsTree tree.now }
    requires inside { node < size tree.now }
    ensures { IfOk result (λ sets. together sets.items ≡ tags_together tree.now node) }
{
    let mut sets = Vec::new(alloc);
    let mut current = node;
    while let Some(parent) = tree.parent(current) {
        sets.push(&tree.node(current).tags)?;
        current = parent;
    }
    Ok(sets)
}

/// Whether one of the expressions is true of all the tags together.
fn any_true(expressions: &[TagExpr], sets: &[&TagSet]) -> bool
    ensures { result ≡ any_true expressions.now (together sets.now) }
{
    for expression in expressions {
        if expression.matches_together(sets) {
            return true;
        }
    }
    false
}

/// Whether the filter keeps the node. Takes no memory where there is no expression.
pub(crate) fn keeps(
    alloc: Global,
    tree: &Tree,
    include: &[TagExpr],
    exclude: &[TagExpr],
    node: NodeId,
) -> Result<bool, AllocError>
    requires tree { IsTree tree.now }
    requires inside { node < size tree.now }
    ensures { IfOk result (λ kept. kept ≡ keeps include.now exclude.now (tags_together tree.now node)) }
{
    if include.is_empty() && exclude.is_empty() {
        return Ok(true);
    }
    let sets = tags_up(alloc, tree, node)?;
    if !include.is_empty() && !any_true(include, sets.as_slice()) {
        return Ok(false);
    }
    Ok(!any_true(exclude, sets.as_slice()))
}
