//! The cases of a report: what they are, and what is told of each.

ghost use Rattle.std.specs.Prelude.{◌≡◌, ℕ, ◌==◌, ◌<◌, ◌≤◌, ◌++◌, IfOk, OnOk};
ghost use Rattle.std.specs.List.{flat_map};
ghost use Rattle.descriptor.specs.Nodes.{size, children_of};
ghost use Rattle.junit_report.specs.Cases.{case_of, cases_of, cause_within, child_cases, dynamic_cases, has_error};
ghost use Rattle.junit_report.specs.Cases.{has_failed, has_registered, is_bare_factory, is_case, is_left_out, own_case};
ghost use Rattle.junit_report.specs.Cases.{own_cause, was_found, worse_of};

use crate::told::{NodeEnd, end_of, told_at};
use descriptor::{NodeId, Tree};
use reports::{kind_of, role_of};
use run_results::NodeEvents;
use std::alloc::{AllocError, Global};

/// What is told of a case: what became of a node.
#[derive(Clone, Copy)]
pub(crate) struct Cause {
    pub(crate) node: NodeId,
    pub(crate) end: NodeEnd,
}

/// A node that is a case, and what is told of it: of the node, or of one that it is below.
#[derive(Clone, Copy)]
pub(crate) struct Case {
    pub(crate) node: NodeId,
    pub(crate) cause: Cause,
}

impl Case {
    /// Whether its own node is told of.
    pub(crate) fn is_own(self) -> bool
        ensures { result ≡ (self.cause.node == self.node) }
    {
        self.cause.node == self.node
    }

    pub(crate) fn has_failed(self) -> bool
        ensures { result ≡ has_failed self }
    {
        self.cause.end.is_failure() && self.is_own()
    }

    /// Whether a node failed that it is below.
    pub(crate) fn has_error(self) -> bool
        ensures { result ≡ has_error self }
    {
        self.cause.end.is_failure() && !self.is_own()
    }

    /// Whether it neither passed nor is told of as failed.
    pub(crate) fn is_left_out(self) -> bool
        ensures { result ≡ is_left_out self }
    {
        !self.cause.end.is_pass() && !self.cause.end.is_failure()
    }
}

/// What became of the node itself.
fn own_cause(told: &[NodeEvents], node: NodeId) -> Cause
    ensures { result ≡ own_cause told.now node }
{
    Cause {
        node,
        end: end_of(told_at(told, node)),
    }
}

/// The worse of what is told of the node above and of what became of the node itself.
fn worse_of(above: Cause, own: Cause) -> Cause
    ensures { result ≡ worse_of above own }
{
    if own.end.badness() < above.end.badness() {
        above
    } else {
        own
    }
}

/// What is told of a node: the worst that became of it and of the nodes that it is below.
fn cause_of(tree: &Tree, told: &[NodeEvents], node: NodeId) -> Cause
    requires { node < size tree.now }
    ensures { (steps : ℕ) → node ≤ steps → result ≡ cause_within tree.now told.now steps node }
{
    let own = own_cause(told, node);
    match tree.parent(node) {
        None => own,
        Some(parent) => worse_of(cause_of(tree, told, parent), own),
    }
}

/// The node as a case.
fn case_of(tree: &Tree, told: &[NodeEvents], node: NodeId) -> Case
    requires { node < size tree.now }
    ensures { result ≡ case_of tree.now told.now node }
{
    Case {
        node,
        cause: cause_of(tree, told, node),
    }
}

/// Whether the node is no spare, or was registered.
fn was_found(tree: &Tree, told: &[NodeEvents], node: NodeId) -> bool
    ensures { result ≡ was_found tree.now told.now node }
{
    !role_of(tree, node).is_spare() || told_at(told, node).registered
}

/// Whether a dynamic test of the node was registered.
fn has_registered(tree: &Tree, told: &[NodeEvents], node: NodeId) -> bool
    requires { node < size tree.now }
    ensures { result ≡ has_registered tree.now told.now node }
{
    tree.children(node)
        .iter()
        .any(|child| told_at(told, *child).registered)
}

/// Whether the node is a factory that did not pass and has no test that could tell so.
fn is_bare_factory(tree: &Tree, told: &[NodeEvents], node: NodeId) -> bool
    requires { node < size tree.now }
    ensures { result ≡ is_bare_factory tree.now told.now node }
{
    role_of(tree, node).is_factory()
        && !has_registered(tree, told, node)
        && !cause_of(tree, told, node).end.is_pass()
}

/// Whether the node is a case.
fn is_case(tree: &Tree, told: &[NodeEvents], node: NodeId) -> bool
    requires { node < size tree.now }
    ensures { result ≡ is_case tree.now told.now node }
{
    (kind_of(tree, node).is_test() && was_found(tree, told, node))
        || is_bare_factory(tree, told, node)
}

/// Appends the case of the node, if it is one.
fn push_own(
    cases: &mut Vec<Case>,
    tree: &Tree,
    told: &[NodeEvents],
    node: NodeId,
) -> Result<(), AllocError>
    requires { node < size tree.now }
    ensures { OnOk result (cases.new.items ≡ cases.old.items ++ own_case tree.now told.now node) }
{
    if is_case(tree, told, node) {
        cases.push(case_of(tree, told, node))?;
    }
    Ok(())
}

/// Appends the cases of the children that are cases themselves.
fn push_children(
    cases: &mut Vec<Case>,
    tree: &Tree,
    told: &[NodeEvents],
    node: NodeId,
) -> Result<(), AllocError>
    requires { node < size tree.now }
    ensures { OnOk result (cases.new.items ≡ cases.old.items
        ++ flat_map (own_case tree.now told.now) (children_of tree.now node)) }
{
    let children = tree.children(node);
    for child in children {
        push_own(cases, tree, told, *child)?;
    }
    Ok(())
}

/// Appends the cases of the node's dynamic tests.
fn push_dynamic(
    cases: &mut Vec<Case>,
    tree: &Tree,
    told: &[NodeEvents],
    node: NodeId,
) -> Result<(), AllocError>
    requires { node < size tree.now }
    ensures { OnOk result (cases.new.items ≡ cases.old.items ++ dynamic_cases tree.now told.now node) }
{
    if role_of(tree, node).is_factory() {
        push_children(cases, tree, told, node)?;
    }
    Ok(())
}

/// Appends the cases of a child, and of its dynamic tests behind it.
fn push_child(
    cases: &mut Vec<Case>,
    tree: &Tree,
    told: &[NodeEvents],
    node: NodeId,
) -> Result<(), AllocError>
    requires { node < size tree.now }
    ensures { OnOk result (cases.new.items ≡ cases.old.items ++ child_cases tree.now told.now node) }
{
    push_own(cases, tree, told, node)?;
    push_dynamic(cases, tree, told, node)
}

/// Appends the cases of all children.
fn push_all(
    cases: &mut Vec<Case>,
    tree: &Tree,
    told: &[NodeEvents],
    node: NodeId,
) -> Result<(), AllocError>
    requires { node < size tree.now }
    ensures { OnOk result (cases.new.items ≡ cases.old.items
        ++ flat_map (child_cases tree.now told.now) (children_of tree.now node)) }
{
    let children = tree.children(node);
    for child in children {
        push_child(cases, tree, told, *child)?;
    }
    Ok(())
}

/// The cases of a node: those of its children, in order. A factory has none, since its dynamic tests
/// are cases of the node above it.
pub(crate) fn cases_of(
    alloc: Global,
    tree: &Tree,
    told: &[NodeEvents],
    node: NodeId,
) -> Result<Vec<Case>, AllocError>
    requires { node < size tree.now }
    ensures { IfOk result (λ cases. cases.items ≡ cases_of tree.now told.now node) }
{
    let mut cases = Vec::new(alloc);
    if !role_of(tree, node).is_factory() {
        push_all(&mut cases, tree, told, node)?;
    }
    Ok(cases)
}
