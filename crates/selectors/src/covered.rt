//! The nodes that a request's selectors cover.

ghost use Rattle.std.specs.Prelude.{◌≡◌, ◌<◌, IfOk};
ghost use Rattle.std.specs.List.{list_any};
ghost use Rattle.descriptor.specs.Nodes.{size, IsTree};
ghost use Rattle.selectors.specs.declared.request.Request.{Request};
ghost use Rattle.selectors.specs.Names.{covers, names};
ghost use Rattle.selectors.specs.Covered.{truths, is_covered, is_excluded};
ghost use Rattle.selectors.specs.Selections.{is_asked_for};

use crate::names::names;
use crate::request::Request;
use crate::selector::Selector;
use descriptor::{NodeId, Tree};
use std::alloc::{AllocError, Global};

/// Whether one of the selectors names the node.
fn is_named(tree: &Tree, selectors: &[Selector], node: NodeId) -> bool
    requires tree { IsTree tree.now }
    requires inside { node < size tree.now }
    ensures { result ≡ list_any (λ selector. names tree.now selector node) selectors.now }
{
    for selector in selectors {
        if names(tree, selector, node) {
            return true;
        }
    }
    false
}

/// Whether the node is covered, where this is known of all nodes before it.
fn is_covered(tree: &Tree, selectors: &[Selector], before: &[bool], node: NodeId) -> bool
    requires tree { IsTree tree.now }
    requires inside { node < size tree.now }
    requires before { before.now ≡ truths (is_covered tree.now selectors.now) node }
    ensures { result ≡ is_covered tree.now selectors.now node }
{
    match tree.parent(node) {
        Some(parent) => before[parent.index()] || is_named(tree, selectors, node),
        None => selectors.is_empty() || is_named(tree, selectors, node),
    }
}

/// For each node whether it is covered.
pub(crate) fn covered(
    alloc: Global,
    tree: &Tree,
    selectors: &[Selector],
) -> Result<Vec<bool>, AllocError>
    requires { IsTree tree.now }
    ensures { IfOk result (λ covered. covered.items ≡ truths (is_covered tree.now selectors.now) (size tree.now)) }
{
    let mut covered = Vec::with_capacity(alloc, tree.len())?;
    for number in 0..tree.len() {
        let node = NodeId::new(number as u16);
        let here = is_covered(tree, selectors, covered.as_slice(), node);
        covered.push(here)?;
    }
    Ok(covered)
}

/// Whether the selector covers the node. Takes no memory.
fn covers(tree: &Tree, selector: &Selector, node: NodeId) -> bool
    requires tree { IsTree tree.now }
    requires inside { node < size tree.now }
    ensures { result ≡ covers tree.now selector.now node }
{
    let mut current = node;
    while let Some(parent) = tree.parent(current) {
        if names(tree, selector, current) {
            return true;
        }
        current = parent;
    }
    names(tree, selector, current)
}

/// Whether one of these selectors covers the node.
fn is_excluded(tree: &Tree, exclusions: &[Selector], node: NodeId) -> bool
    requires tree { IsTree tree.now }
    requires inside { node < size tree.now }
    ensures { result ≡ is_excluded tree.now exclusions.now node }
{
    for exclusion in exclusions {
        if covers(tree, exclusion, node) {
            return true;
        }
    }
    false
}

/// Whether one of these selectors covers the node, or there are none. Takes no memory.
fn is_within(tree: &Tree, selectors: &[Selector], node: NodeId) -> bool
    requires tree { IsTree tree.now }
    requires inside { node < size tree.now }
    ensures { result ≡ is_covered tree.now selectors.now node }
{
    selectors.is_empty() || is_excluded(tree, selectors, node)
}

/// Whether the request takes the node by its place and its name, where it is known whether one of
/// its selectors covers it.
pub(crate) fn is_asked_for(tree: &Tree, request: &Request, covered: bool, node: NodeId) -> bool
    requires tree { IsTree tree.now }
    requires inside { node < size tree.now }
    requires covered { covered ≡ is_covered tree.now request.now.selectors.items node }
    ensures { result ≡ is_asked_for tree.now request.now node }
{
    covered
        && is_within(tree, request.names.as_slice(), node)
        && is_within(tree, request.rerun.as_slice(), node)
        && !is_excluded(tree, request.exclusions.as_slice(), node)
}
