//! The pulls of a factory, which follow from its lines where its own line does not say them.

ghost use Rattle.std.specs.Prelude.{◌≡◌, ◌≤◌, ◌++◌, length, map, IfOk, OnOk};
ghost use Rattle.descriptor.specs.Nodes.{children_of};
ghost use Rattle.suite_words.specs.Reading.Pulls.{settled};

use crate::script::Script;
use descriptor::{NodeId, Tree};
use std::alloc::{AllocError, Global};

/// A script whose pulls may follow from lines that are still to come.
#[derive(Drop)]
pub struct Pending {
    pub script: Script,
    /// Whether the body is pulled once for each line of its factory.
    pub counts: bool,
}

/// How many lines of the tree hang right below a node; below one that the tree lacks, none.
pub fn lines_below(tree: &Tree, node: NodeId) -> u16
    ensures lines { result ≡ length (children_of tree.now node) }
    ensures few { result ≤ 16384 }
{
    if node.index() < tree.len() {
        tree.children(node).len() as u16
    } else {
        0
    }
}

impl Pending {
    /// The script, once all lines are in the tree.
    fn settled(self, tree: &Tree) -> Script
        ensures { result ≡ settled tree.now self }
    {
        let mut script = self.script;
        if self.counts {
            script.reply.pulls = lines_below(tree, NodeId::new(script.body.number()));
        }
        script
    }
}

/// Appends the scripts, once all lines are in the tree.
fn push_settled(all: &mut Vec<Script>, tree: &Tree, scripts: Vec<Pending>) -> Result<(), AllocError>
    ensures { OnOk result (all.new.items ≡ all.old.items ++ map (settled tree.now) scripts.items) }
{
    for pending in scripts {
        all.push(pending.settled(tree))?;
    }
    Ok(())
}

/// Appends the scripts of after-bodies.
fn push_afters(all: &mut Vec<Script>, afters: Vec<Script>) -> Result<(), AllocError>
    ensures { OnOk result (all.new.items ≡ all.old.items ++ afters.items) }
{
    for script in afters {
        all.push(script)?;
    }
    Ok(())
}

/// The scripts, once all lines are in the tree, and behind them those of the after-bodies.
pub fn all_settled(
    alloc: Global,
    tree: &Tree,
    scripts: Vec<Pending>,
    afters: Vec<Script>,
) -> Result<Vec<Script>, AllocError>
    ensures { IfOk result (λ all. all.items ≡ map (settled tree.now) scripts.items ++ afters.items) }
{
    let mut all = Vec::with_capacity(alloc, scripts.len())?;
    push_settled(&mut all, tree, scripts)?;
    push_afters(&mut all, afters)?;
    Ok(all)
}
