//! A listener that counts.

ghost use Rattle.std.specs.Prelude.{◌≡◌, ◌++◌, ◌∷◌, [], ◌+◌, ◌<◌, ◌≤◌, OnOk, OnErr};
ghost use Rattle.resource_locks.specs.Plans.{most_events};

use crate::tally::Tally;
use listeners::{EventList, Listener};
use plan_events::Event;
use resource_locks::Plan;
use std::alloc::{AllocError, Global};
use std::marker::Model;

/// Counts the nodes of the plan last prepared by what it was told of them.
#[derive(Drop)]
pub struct Summary {
    list: EventList,
    tally: Tally,
}

impl Model for Summary {
    ghost use Rattle.run_results.specs.Summaries.{SummaryParts};

    ghost Value = { SummaryParts };

    ghost use Rattle.run_results.specs.Inside.SummaryFields.{parts_of, IsSound};

    ghost view = { parts_of };

    ghost invariant = { IsSound };
}

impl Summary {
    ghost use Rattle.descriptor.specs.Nodes.{Nodes, IsTree};
    ghost use Rattle.run_results.specs.Counts.{counts_on, outline_of, SkipsReachBelow};

    /// A summary that was told nothing, and was prepared for no plan.
    pub fn new(alloc: Global) -> Summary
        ensures { result ≡ record { got = []; room = 0; outline = [] } }
    {
        Summary {
            list: EventList::new(alloc),
            tally: Tally::new(alloc),
        }
    }

    /// Twelve counts on the plan last prepared, zeros before: of containers those that were found,
    /// skipped, started, aborted, successful and failed, then the same of tests. A node that is
    /// both counts in both, node 0 in none. Spares are found where they were registered. A node
    /// below a skipped one counts as skipped, unless it is a spare. It takes no memory.
    pub fn counts(&self) -> [u32; 12]
        ensures counts { result ≡ counts_on self.now.outline self.now.got }
        ensures skipped { (t : Nodes) → IsTree t → self.now.outline ≡ outline_of t → SkipsReachBelow t self.now.got }
    {
        self.tally.counts().twelve()
    }
}

impl Listener for Summary {
    ghost use Rattle.run_results.specs.Counts.{outline_of};

    ghost got = { λ s. s.got };

    ghost room = { λ s. s.room };

    fn prepare(&mut self, plan: &Plan) -> Result<(), AllocError>
        ensures got { self.new.got ≡ self.old.got }
        ensures room { OnOk result (most_events plan.now ≤ self.new.room) }
        ensures outline { OnOk result (self.new.outline ≡ outline_of plan.now.tree) }
        ensures grown { self.old.room ≤ self.new.room }
        ensures err { OnErr result (self.new ≡ self.old) }
    {
        let tally = Tally::of(self.tally.allocator(), plan, self.list.events())?;
        self.list.reserve(plan.most_events())?;
        self.tally = tally;
        Ok(())
    }

    fn told(&mut self, event: Event, _text: Option<&str>)
        requires { 0 < self.old.room }
        ensures got { self.new.got ≡ self.old.got ++ event ∷ [] }
        ensures room { self.new.room + 1 ≡ self.old.room }
        ensures outline { self.new.outline ≡ self.old.outline }
    {
        let event = &event;
        self.tally.tell(event);
        self.list.push(*event);
    }

    fn got(&self) -> &[Event] {
        self.list.events()
    }

    fn room(&self) -> usize {
        self.list.room()
    }
}
