//! The list of what would be run.

ghost use Rattle.std.specs.Prelude.{◌≡◌, ℕ, ◌<◌, ◌≤◌, ◌++◌, OnOk, IfOk, string_bytes};
ghost use Rattle.descriptor.specs.Nodes.{size};
ghost use Rattle.reports.specs.Lists.{is_ruled_out_within, is_listed, is_unit, list_line, list_of};

use crate::nodes::{id_of, kind_of, role_of};
use descriptor::{NodeId, Tree};
use resource_locks::Plan;
use std::alloc::{AllocError, Global};

/// Whether the node is disabled, or one that it is below.
fn is_ruled_out(tree: &Tree, node: NodeId) -> bool
    requires { node < size tree.now }
    ensures { (steps : ℕ) → node ≤ steps → result ≡ is_ruled_out_within tree.now steps node }
{
    if tree.reason(node).is_some() {
        return true;
    }
    match tree.parent(node) {
        None => false,
        Some(parent) => is_ruled_out(tree, parent),
    }
}

/// Whether it is a test that is no spare, or a factory.
fn is_unit(tree: &Tree, node: NodeId) -> bool
    ensures { result ≡ is_unit tree.now node }
{
    let role = role_of(tree, node);
    (kind_of(tree, node).is_test() && !role.is_spare()) || role.is_factory()
}

/// Whether a list names the node.
fn is_listed(tree: &Tree, node: NodeId) -> bool
    requires { node < size tree.now }
    ensures { result ≡ is_listed tree.now node }
{
    is_unit(tree, node) && !is_ruled_out(tree, node)
}

/// Appends the line of a node.
fn push_line(list: &mut String, plan: &Plan, node: NodeId) -> Result<(), AllocError>
    requires { node < size plan.now.tree }
    ensures { OnOk result (string_bytes list.new ≡ string_bytes list.old ++ list_line plan.now node) }
{
    if !is_listed(plan.tree(), node) {
        return Ok(());
    }
    list.push_str(id_of(plan, node))?;
    list.push_str("\n")
}

/// What would be run of a plan: the canonical id of each test that is no spare and of each factory,
/// unless it is disabled or below a node that is; a line for each, in the plan's order.
pub fn list_text(alloc: Global, plan: &Plan) -> Result<String, AllocError>
    ensures { IfOk result (λ list. string_bytes list ≡ list_of plan.now) }
{
    let mut list = String::new(alloc);
    let tree = plan.tree();
    for number in 0..tree.len() {
        push_line(&mut list, plan, NodeId::new(number as u16))?;
    }
    Ok(list)
}
