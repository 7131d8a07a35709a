//! The class names of nodes.

ghost use Rattle.std.specs.Prelude.{◌≡◌, ℕ, ◌<◌, ◌≤◌, IfOk, string_bytes};
ghost use Rattle.descriptor.specs.Nodes.{size, is_high, parent_of};
ghost use Rattle.junit_report.specs.ClassNames.{class_name, class_name_within, has_engines, top_name};

use descriptor::{NodeId, Tree};
use reports::name_of;
use std::alloc::{AllocError, Global};

/// Whether a node is the plan or an engine.
fn is_high(tree: &Tree, node: NodeId) -> bool
    requires { node < size tree.now }
    ensures { result ≡ is_high tree.now node }
{
    match tree.parent(node) {
        None => true,
        Some(parent) => parent == NodeId::ROOT,
    }
}

/// Whether there is more than one engine.
fn has_engines(tree: &Tree) -> bool
    ensures { result ≡ has_engines tree.now }
{
    // the contract of `len` tells that there is the plan
    let _ = tree.len();
    tree.children(NodeId::ROOT).len() > 1
}

/// The name of an engine, or of a node below one; behind that of its engine where there are several.
fn top_name(
    alloc: Global,
    tree: &Tree,
    several: bool,
    node: NodeId,
    parent: NodeId,
) -> Result<String, AllocError>
    requires { parent ≡ parent_of tree.now node }
    ensures { IfOk result (λ text. string_bytes text ≡ top_name tree.now several node) }
{
    if !several || parent == NodeId::ROOT {
        return String::from_str(alloc, name_of(tree, node));
    }
    let mut name = String::from_str(alloc, name_of(tree, parent))?;
    name.push_str("/")?;
    name.push_str(name_of(tree, node))?;
    Ok(name)
}

/// The names from the node below an engine down to this one, joined by `$`; of an engine its name.
fn class_name_by(
    alloc: Global,
    tree: &Tree,
    several: bool,
    node: NodeId,
) -> Result<String, AllocError>
    requires { node < size tree.now }
    ensures { IfOk result (λ text. (steps : ℕ) → node ≤ steps → string_bytes text ≡ class_name_within tree.now several
        steps node) }
{
    let Some(parent) = tree.parent(node) else {
        return Ok(String::new(alloc));
    };
    if is_high(tree, parent) {
        let name = top_name(alloc, tree, several, node, parent)?;
        return Ok(name);
    }
    let mut name = class_name_by(alloc, tree, several, parent)?;
    name.push_str("$")?;
    name.push_str(name_of(tree, node))?;
    Ok(name)
}

/// The class name of a node.
pub(crate) fn class_name(alloc: Global, tree: &Tree, node: NodeId) -> Result<String, AllocError>
    requires { node < size tree.now }
    ensures { IfOk result (λ text. string_bytes text ≡ class_name tree.now node) }
{
    class_name_by(alloc, tree, has_engines(tree), node)
}
