//! A node that failed.

ghost use Rattle.std.specs.Prelude.{◌≡◌, ◌<◌, IfOk, string_bytes};
ghost use Rattle.descriptor.specs.Kinds.{is_container};
ghost use Rattle.descriptor.specs.Nodes.{kind_of, size};
ghost use Rattle.run_results.specs.Feed.{id_at, text_or};
ghost use Rattle.run_results.specs.TreeTexts.{name_at};
ghost use Rattle.plan_events.specs.Texts.{text_at};
ghost use Rattle.live.specs.FailedTexts.{is_left_out, is_named, selects_below};

use descriptor::NodeId;
use plan_events::Texts;
use resource_locks::Plan;
use std::alloc::{AllocError, Global};

/// Whether the arguments that select what failed name a node.
#[derive(Clone, Copy)]
pub enum Naming {
    Named,
    /// A node below it failed too, and is named in its place, if there is room.
    Above,
    /// There are as many arguments as there may be.
    LeftOut,
}

impl Naming {
    pub fn is_named(self) -> bool
        ensures { result ≡ is_named self }
    {
        matches!(self, Naming::Named)
    }

    pub fn is_left_out(self) -> bool
        ensures { result ≡ is_left_out self }
    {
        matches!(self, Naming::LeftOut)
    }
}

/// A node that failed, and what is said of it.
#[derive(Drop)]
pub struct Failure {
    pub node: NodeId,
    /// The canonical text of its unique id.
    pub id: String,
    pub name: String,
    /// The reason, which may be empty.
    pub text: String,
    /// Whether it may hold other nodes, which are selected with it.
    pub holds: bool,
    pub naming: Naming,
}

impl Failure {
    /// The failure of a node of the plan, with its text.
    pub fn of(
        alloc: Global,
        plan: &Plan,
        texts: &Texts,
        node: NodeId,
        naming: Naming,
    ) -> Result<Failure, AllocError>
        requires above_zero { 0 < node }
        requires inside { node < size plan.now.tree }
        ensures node { IfOk result (λ failure. failure.node ≡ node) }
        ensures id { IfOk result (λ failure. string_bytes failure.id ≡ id_at plan.now node) }
        ensures name { IfOk result (λ failure. string_bytes failure.name ≡ name_at plan.now.tree node) }
        ensures text { IfOk result (λ failure. string_bytes failure.text ≡ text_or (text_at texts.now node)) }
        ensures holds { IfOk result (λ failure. failure.holds ≡ is_container (kind_of plan.now.tree node)) }
        ensures naming { IfOk result (λ failure. failure.naming ≡ naming) }
    {
        let tree = plan.tree();
        Ok(Failure {
            node,
            id: String::from_str(alloc, tree.node(node).id.text())?,
            name: String::from_str(alloc, tree.node(node).name.as_str())?,
            text: String::from_str(alloc, texts.of(node).unwrap_or(""))?,
            holds: tree.kind(node).is_container(),
            naming,
        })
    }

    /// Whether more is selected with it by the arguments.
    pub fn selects_below(&self) -> bool
        ensures { result ≡ selects_below self.now }
    {
        self.naming.is_named() && self.holds
    }
}
