//! What is kept of a plan to count its nodes, and what was told of them.

ghost use Rattle.std.specs.Prelude.{◌≡◌, ◌++◌, ◌∷◌, [], List, IfOk, length};
ghost use Rattle.descriptor.specs.Kinds.{is_container, is_test};
ghost use Rattle.descriptor.specs.Nodes.{IsTree};
ghost use Rattle.plan_events.specs.declared.event.Event.{Event};
ghost use Rattle.run_results.specs.Told.{all_told};
ghost use Rattle.run_results.specs.Counts.{outline_of, counts_below};

use crate::counts::{Counts, count};
use crate::node_places::{NodePlace, outline_of};
use crate::told::{NodeEvents, node_events, note};
use plan_events::Event;
use resource_locks::Plan;
use std::alloc::{AllocError, Global};
use std::marker::Model;

/// The places of a plan's nodes, and what was told of each.
#[derive(Drop)]
pub(crate) struct Tally {
    outline: Vec<NodePlace>,
    told: Vec<NodeEvents>,
}

impl Model for Tally {
    ghost use Rattle.run_results.specs.Inside.Tallies.{TallyParts, tally_of, IsTally};

    ghost Value = { TallyParts };

    ghost view = { tally_of };

    ghost invariant = { IsTally };
}

impl Tally {
    /// The tally of no plan. It takes no memory.
    pub(crate) fn new(alloc: Global) -> Tally
        ensures { result ≡ record { outline = []; told = [] } }
    {
        Tally {
            outline: Vec::new(alloc),
            told: Vec::new(alloc),
        }
    }

    /// The tally of a plan of which these events tell.
    pub(crate) fn of(alloc: Global, plan: &Plan, events: &[Event]) -> Result<Tally, AllocError>
        ensures tree { IfOk result (λ _. IsTree plan.now.tree) }
        ensures outline { IfOk result (λ tally. tally.outline ≡ outline_of plan.now.tree) }
        ensures told { IfOk result (λ tally. tally.told ≡ all_told (length tally.outline) events.now) }
    {
        let outline = outline_of(alloc, plan)?;
        let told = node_events(alloc, outline.len(), events)?;
        Ok(Tally { outline, told })
    }

    pub(crate) fn allocator(&self) -> Global {
        *self.outline.allocator()
    }

    /// Adds an event; one of a node that the plan lacks tells nothing. It takes no memory.
    pub(crate) fn tell(&mut self, event: &Event)
        ensures outline { self.new.outline ≡ self.old.outline }
        ensures told { (events : List Event) → self.old.told ≡ all_told (length self.old.outline) events →
            self.new.told ≡ all_told (length self.old.outline) (events ++ event.now ∷ []) }
    {
        note(&mut self.told, *event);
    }

    /// What was told of each node.
    pub(crate) fn told(&self) -> &[NodeEvents]
        ensures { result.now ≡ self.now.told }
    {
        self.told.as_slice()
    }

    /// What there is of each sort, and what became of it. It takes no memory.
    pub(crate) fn counts(&self) -> Counts
        ensures containers { result.containers ≡ counts_below is_container self.now.outline self.now.told
            (length self.now.outline) }
        ensures tests { result.tests ≡ counts_below is_test self.now.outline self.now.told (length self.now.outline) }
    {
        count(self.outline.as_slice(), self.told.as_slice())
    }
}
