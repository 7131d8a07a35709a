//! The nodes that a request takes: tests and factories that it selects, and the spares of these factories.

ghost use Rattle.std.specs.Prelude.{◌≡◌, ◌<◌, IfOk, true};
ghost use Rattle.descriptor.specs.Nodes.{size, is_spare_at, IsTree};
ghost use Rattle.selectors.specs.Covered.{truths, is_covered};
ghost use Rattle.selectors.specs.Keeping.{is_taken};
ghost use Rattle.selectors.specs.Selections.{is_selected};
ghost use Rattle.selectors.specs.Units.{is_selectable};

use crate::covered::{covered, is_asked_for};
use crate::filter::keeps;
use crate::request::Request;
use descriptor::{Kind, NodeId, Role, Tree};
use std::alloc::{AllocError, Global};

/// Whether a node of this kind and role may be selected: a factory, or a test that is no spare.
pub(crate) fn is_selectable(kind: Kind, role: Role) -> bool
    ensures { result ≡ is_selectable kind role }
{
    role.is_factory() || kind.is_test() && !role.is_spare()
}

/// Whether the node is selected, where it is known whether it is covered.
fn is_selected(
    alloc: Global,
    tree: &Tree,
    request: &Request,
    covered: bool,
    node: NodeId,
) -> Result<bool, AllocError>
    requires tree { IsTree tree.now }
    requires inside { node < size tree.now }
    requires covered { covered ≡ is_covered tree.now request.now.selectors.items node }
    ensures { IfOk result (λ selected. selected ≡ is_selected tree.now request.now node) }
{
    if !is_selectable(tree.kind(node), tree.role(node)) {
        return Ok(false);
    }
    if !is_asked_for(tree, request, covered, node) {
        return Ok(false);
    }
    keeps(
        alloc,
        tree,
        request.include.as_slice(),
        request.exclude.as_slice(),
        node,
    )
}

/// Whether a spare is taken, which it is where its factory is.
fn is_spare_taken(tree: &Tree, request: &Request, before: &[bool], node: NodeId) -> bool
    requires tree { IsTree tree.now }
    requires inside { node < size tree.now }
    requires spare { is_spare_at tree.now node ≡ true }
    requires before { before.now ≡ truths (is_taken tree.now (is_selected tree.now request.now)) node }
    ensures { result ≡ is_taken tree.now (is_selected tree.now request.now) node }
{
    match tree.parent(node) {
        Some(factory) => before[factory.index()],
        None => false,
    }
}

/// Whether the node is taken, where it is known whether it is covered, and of all nodes before it
/// whether they are taken.
fn is_taken(
    alloc: Global,
    tree: &Tree,
    request: &Request,
    covered: bool,
    before: &[bool],
    node: NodeId,
) -> Result<bool, AllocError>
    requires tree { IsTree tree.now }
    requires inside { node < size tree.now }
    requires covered { covered ≡ is_covered tree.now request.now.selectors.items node }
    requires before { before.now ≡ truths (is_taken tree.now (is_selected tree.now request.now)) node }
    ensures { IfOk result (λ taken. taken ≡ is_taken tree.now (is_selected tree.now request.now) node) }
{
    if tree.role(node).is_spare() {
        return Ok(is_spare_taken(tree, request, before, node));
    }
    is_selected(alloc, tree, request, covered, node)
}

/// For each node whether it is taken.
pub(crate) fn taken(alloc: Global, tree: &Tree, request: &Request) -> Result<Vec<bool>, AllocError>
    requires { IsTree tree.now }
    ensures { IfOk result (λ taken. taken.items ≡ truths (is_taken tree.now (is_selected tree.now request.now))
        (size tree.now)) }
{
    let covered = covered(alloc, tree, request.selectors.as_slice())?;
    let mut taken = Vec::with_capacity(alloc, tree.len())?;
    for number in 0..tree.len() {
        let node = NodeId::new(number as u16);
        let before = taken.as_slice();
        let here = is_taken(alloc, tree, request, covered[number], before, node)?;
        taken.push(here)?;
    }
    Ok(taken)
}
