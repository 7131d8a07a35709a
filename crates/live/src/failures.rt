//! The nodes of a run that failed.

ghost use Rattle.std.specs.Prelude.{◌≡◌, ◌<◌, []};
ghost use Rattle.std.specs.List.{list_any};
ghost use Rattle.plan_events.specs.Texts.{text_at};
ghost use Rattle.live.specs.FailedTexts.{are_some, is_left_out};
ghost use Rattle.live.specs.Failing.{Keeps, KeepsNode, Misses};

use crate::failure::{Failure, Naming};
use descriptor::NodeId;
use listeners::Observer;
use plan_events::{Event, Texts};
use resource_locks::Plan;
use run_results::tells_failure;
use std::alloc::Global;

/// How many failures are kept.
const MOST_KEPT: usize = 20;

/// How many of them the arguments name.
const MOST_NAMED: usize = 10;

/// Whether the arguments had no room for one of them.
fn any_left_out(failures: &[Failure]) -> bool
    ensures { result ≡ list_any (λ f. is_left_out f.naming) failures.now }
{
    failures.iter().any(|failure| failure.naming.is_left_out())
}

/// The nodes that failed, in the order in which they ended: the first are kept, all are counted. As a
/// observer of a run it takes note of each that fails.
#[derive(Drop)]
pub struct Failures {
    alloc: Global,
    pub kept: Vec<Failure>,
    /// How many others failed.
    pub more: u32,
}

impl Failures {
    /// No node failed.
    pub fn new(alloc: Global) -> Failures
        ensures none { result.kept.items ≡ [] }
        ensures more { result.more ≡ 0 }
    {
        Failures {
            alloc,
            kept: Vec::new(alloc),
            more: 0,
        }
    }

    /// Whether no node failed.
    pub fn are_none(&self) -> bool {
        self.kept.is_empty() && self.more == 0
    }

    /// Whether the arguments select not all that failed.
    pub fn are_some(&self) -> bool
        ensures { result ≡ are_some self.now }
    {
        self.more > 0 || any_left_out(self.kept.as_slice())
    }

    /// Counts a node that failed and is not kept.
    fn miss(&mut self)
        ensures { Misses self.old self.new }
    {
        self.more = self.more.saturating_add(1);
    }

    /// Keeps a node that failed, if it is one of the first and there is memory for it, or counts it.
    pub fn keep(&mut self, failure: Failure)
        ensures { Keeps failure self.old self.new }
    {
        if self.kept.len() >= MOST_KEPT {
            drop(failure);
            self.miss();
            return;
        }
        if self.kept.push(failure).is_err() {
            self.miss();
        }
    }

    /// Whether a node failed that is below this one.
    fn has_below(&self, plan: &Plan, node: NodeId) -> bool {
        let tree = plan.tree();
        for failure in self.kept.as_slice() {
            if failure.node.index() < tree.len() && tree.below(failure.node, node) {
                return true;
            }
        }
        false
    }

    /// How many the arguments name.
    fn named(&self) -> usize {
        self.kept
            .iter()
            .filter(|failure| failure.naming.is_named())
            .count()
    }

    /// Whether the arguments are to name a node that failed.
    fn naming(&self, plan: &Plan, node: NodeId) -> Naming {
        if self.has_below(plan, node) {
            Naming::Above
        } else if self.named() < MOST_NAMED {
            Naming::Named
        } else {
            Naming::LeftOut
        }
    }

    /// Takes note of a node that failed.
    fn note(&mut self, plan: &Plan, texts: &Texts, node: NodeId)
        requires above_zero { 0 < node }
        ensures { KeepsNode plan.now node (text_at texts.now node) self.old self.new }
    {
        if self.kept.len() >= MOST_KEPT || node.index() >= plan.tree().len() {
            self.miss();
            return;
        }
        let naming = self.naming(plan, node);
        match Failure::of(self.alloc, plan, texts, node, naming) {
            Ok(failure) => self.keep(failure),
            Err(_) => self.miss(),
        }
    }
}

impl Observer for Failures {
    ghost use Rattle.live.specs.Failing.{HasKept};

    ghost saw = { HasKept };

    fn see(&mut self, plan: &Plan, texts: &Texts, event: Event) {
        let event = &event;
        if tells_failure(*event) {
            self.note(plan, texts, event.node);
        }
    }

    fn idle(&mut self) {}
}
