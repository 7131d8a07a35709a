//! The nodes of a plan before it is run: an object of JSON for each.

ghost use Rattle.std.specs.Prelude.{◌≡◌, ◌<◌, ◌==◌, ◌++◌, [], OnOk, IfOk, codes, cond, length, map, string_bytes};
ghost use Rattle.std.specs.List.{join_by};
ghost use Rattle.descriptor.specs.Nodes.{parent_of, reason_of, size};
ghost use Rattle.json.specs.Json.{array};
ghost use Rattle.json.specs.Print.{quoted};
ghost use Rattle.resource_locks.specs.Plans.{held_of, key_number, limit_of};
ghost use Rattle.reports.specs.Json.{ReadsAs, written};
ghost use Rattle.reports.specs.JsonPieces.{members_behind, value_text};
ghost use Rattle.reports.specs.PlanNodes.{mode_word, lock_word, limit_members, lock_with, lock_json, lock_items};
ghost use Rattle.reports.specs.PlanNodes.{reason_members, way_members, plan_members, node_line, node_json, plan_lines};
ghost use Rattle.reports.specs.PlanNodes.{nodes_told, HaveByteLimits};

use crate::json_lines::type_word;
use crate::json_strings::{push_further, push_member, push_number, push_quoted};
use crate::nodes::{id_of, kind_of, name_of};
use descriptor::{Lock, LockMode, Mode, NodeId, Tree};
use resource_locks::Plan;
use std::alloc::{AllocError, Global};

fn mode_word(mode: Mode) -> &'static str
    ensures { result.now ≡ mode_word mode }
{
    match mode {
        Mode::SameThread => "SAME_THREAD",
        Mode::Concurrent => "CONCURRENT",
    }
}

fn lock_word(mode: LockMode) -> &'static str
    ensures { result.now ≡ lock_word mode }
{
    match mode {
        LockMode::Read => "READ",
        LockMode::ReadWrite => "READ_WRITE",
    }
}

/// Appends how many nodes may hold a key at once, if that is limited.
fn push_limit(json: &mut String, limit: u8) -> Result<(), AllocError>
    ensures { OnOk result (string_bytes json.new ≡ string_bytes json.old ++ members_behind (limit_members limit)) }
{
    if limit == 0 {
        return Ok(());
    }
    push_number(json, "holders", u64::from(limit))
}

/// Appends a lock that a node holds; so many nodes may hold its key at once, or any number if that is 0.
fn push_lock(json: &mut String, lock: &Lock, limit: u8) -> Result<(), AllocError>
    ensures { OnOk result (string_bytes json.new ≡ string_bytes json.old ++ value_text (lock_with limit lock.now)) }
{
    json.push_str("{")?;
    push_member(json, "key", lock.key.as_str())?;
    push_further(json, "mode", lock_word(lock.mode))?;
    push_limit(json, limit)?;
    json.push_str("}")
}

/// Appends the comma before the value at a place, counted from 0, of an array; the first has none.
fn push_comma(json: &mut String, place: usize) -> Result<(), AllocError>
    ensures { OnOk result (string_bytes json.new ≡ string_bytes json.old ++ cond (place == 0) [] (codes ",")) }
{
    if place == 0 {
        return Ok(());
    }
    json.push_str(",")
}

/// How many nodes may at once hold the key at a place, counted from 0, of a node's set; 0 if that is not limited.
fn limit_at(plan: &Plan, node: NodeId, place: usize) -> u8
    requires node { node < size plan.now.tree }
    requires place { place < length (held_of plan.now node) }
    ensures { result ≡ limit_of plan.now (key_number plan.now node place) }
{
    plan.limit(plan.key_number(node, place))
}

/// Appends the locks that a node holds, with a comma between each two.
fn push_locks(json: &mut String, plan: &Plan, node: NodeId) -> Result<(), AllocError>
    requires { node < size plan.now.tree }
    ensures text { OnOk result (string_bytes json.new ≡ string_bytes json.old
        ++ join_by (λ lock. value_text (lock_json plan.now lock)) (codes ",") (held_of plan.now node)) }
    ensures small { OnOk result (HaveByteLimits plan.now (held_of plan.now node)) }
{
    let locks = plan.held(node).locks();
    for place in 0..locks.len() {
        push_comma(json, place)?;
        push_lock(json, &locks[place], limit_at(plan, node, place))?;
    }
    Ok(())
}

/// Appends an array of the locks that a node holds.
fn push_array(json: &mut String, plan: &Plan, node: NodeId) -> Result<(), AllocError>
    requires { node < size plan.now.tree }
    ensures text { OnOk result (string_bytes json.new ≡ string_bytes json.old
        ++ value_text (array (lock_items plan.now (held_of plan.now node)))) }
    ensures small { OnOk result (HaveByteLimits plan.now (held_of plan.now node)) }
{
    json.push_str("[")?;
    push_locks(json, plan, node)?;
    json.push_str("]")
}

/// Appends the member that has the locks that a node holds, behind another one.
fn push_held(json: &mut String, plan: &Plan, node: NodeId) -> Result<(), AllocError>
    requires { node < size plan.now.tree }
    ensures text { OnOk result (string_bytes json.new ≡ string_bytes json.old
        ++ (codes "," ++ (quoted (codes "held") ++ (codes ":"
        ++ value_text (array (lock_items plan.now (held_of plan.now node))))))) }
    ensures small { OnOk result (HaveByteLimits plan.now (held_of plan.now node)) }
{
    json.push_str(",")?;
    push_quoted(json, "held")?;
    json.push_str(":")?;
    push_array(json, plan, node)
}

/// Appends why a node is disabled, if it is.
fn push_reason(json: &mut String, tree: &Tree, node: NodeId) -> Result<(), AllocError>
    requires { node < size tree.now }
    ensures { OnOk result (string_bytes json.new ≡ string_bytes json.old
        ++ members_behind (reason_members (reason_of tree.now node))) }
{
    match tree.reason(node) {
        None => Ok(()),
        Some(reason) => push_further(json, "disabled", reason),
    }
}

/// The parent of a node that is not the plan.
fn parent_of(tree: &Tree, node: NodeId) -> NodeId
    requires above { 0 < node }
    requires inside { node < size tree.now }
    ensures { result ≡ parent_of tree.now node }
{
    match tree.parent(node) {
        None => NodeId::ROOT,
        Some(parent) => parent,
    }
}

/// Appends how a node would be run.
fn push_ways(json: &mut String, plan: &Plan, node: NodeId) -> Result<(), AllocError>
    requires { node < size plan.now.tree }
    ensures text { OnOk result (string_bytes json.new ≡ string_bytes json.old
        ++ members_behind (way_members plan.now node)) }
    ensures small { OnOk result (HaveByteLimits plan.now (held_of plan.now node)) }
{
    push_further(json, "mode", mode_word(plan.mode(node)))?;
    push_held(json, plan, node)?;
    push_reason(json, plan.tree(), node)
}

/// Appends what stands behind the type of a node.
fn push_members(json: &mut String, plan: &Plan, node: NodeId) -> Result<(), AllocError>
    requires above { 0 < node }
    requires inside { node < size plan.now.tree }
    ensures text { OnOk result (string_bytes json.new ≡ string_bytes json.old
        ++ members_behind (plan_members plan.now node)) }
    ensures small { OnOk result (HaveByteLimits plan.now (held_of plan.now node)) }
{
    let tree = plan.tree();
    push_further(json, "id", id_of(plan, node))?;
    push_further(json, "parent", id_of(plan, parent_of(tree, node)))?;
    push_further(json, "name", name_of(tree, node))?;
    push_ways(json, plan, node)
}

/// Appends the object of a node, on a line of its own.
fn push_object(json: &mut String, plan: &Plan, node: NodeId) -> Result<(), AllocError>
    requires above { 0 < node }
    requires inside { node < size plan.now.tree }
    ensures text { OnOk result (string_bytes json.new ≡ string_bytes json.old
        ++ (written (node_json plan.now node) ++ codes "\n")) }
    ensures small { OnOk result (HaveByteLimits plan.now (held_of plan.now node)) }
{
    json.push_str("{")?;
    push_member(json, "type", type_word(kind_of(plan.tree(), node)))?;
    push_members(json, plan, node)?;
    json.push_str("}\n")
}

/// Appends the line of a node; the plan itself has none.
fn push_line(json: &mut String, plan: &Plan, node: NodeId) -> Result<(), AllocError>
    requires { node < size plan.now.tree }
    ensures text { OnOk result (string_bytes json.new ≡ string_bytes json.old ++ node_line plan.now node) }
    ensures small { OnOk result (0 < node → HaveByteLimits plan.now (held_of plan.now node)) }
{
    if node == NodeId::ROOT {
        return Ok(());
    }
    push_object(json, plan, node)
}

/// The nodes of a plan before it is run: for each but the plan itself, in the plan's order, an
/// object with its type, its id and its parent's, its name, its execution mode, the locks that it
/// holds while it runs, each with how many nodes may hold its key at once, if that is limited, and
/// why it is disabled, if it is; each on a line of its own.
pub fn plan_text(alloc: Global, plan: &Plan) -> Result<String, AllocError>
    ensures text { IfOk result (λ json. string_bytes json ≡ plan_lines plan.now) }
    // Each line, read as JSON, is the object of its node.
    ensures reads_back { IfOk result (λ json. ReadsAs (string_bytes json)
        (map (node_json plan.now) (nodes_told plan.now))) }
{
    let mut json = String::new(alloc);
    for number in 0..plan.tree().len() {
        push_line(&mut json, plan, NodeId::new(number as u16))?;
    }
    Ok(json)
}
