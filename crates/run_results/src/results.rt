//! What became of the nodes of a plan in a run.

ghost use Rattle.std.specs.Prelude.{◌≡◌, ◌≤◌, ℕ, ◌↔◌, [], IfOk, IsTrue, string_bytes};
ghost use Rattle.descriptor.specs.Nodes.{size};
ghost use Rattle.run_results.specs.Counts.{counts_of, SkipsReachBelow};
ghost use Rattle.run_results.specs.Feed.{feed_of};
ghost use Rattle.run_results.specs.Results.{tests_found, has_failed, HasFailed};
ghost use Rattle.run_results.specs.SummaryTexts.{summary_of};
ghost use Rattle.run_results.specs.TreeTexts.{tree_of, drawn_of, lines_below};

use crate::feed::feed_text;
use crate::summary_lines::push_counts;
use crate::tally::Tally;
use crate::theme::Theme;
use crate::told::any_failed;
use crate::tree_drawing::draw;
use plan_events::{Event, Texts};
use resource_locks::Plan;
use std::alloc::{AllocError, Global};
use std::marker::Model;

/// What became of each node of a plan by the events of a run, found in one pass over them.
#[derive(Drop)]
pub struct Results<'a> {
    plan: &'a Plan,
    events: &'a [Event],
    tally: Tally,
}

impl<'a> Model for Results<'a> {
    ghost use Rattle.run_results.specs.Results.{ResultParts};
    ghost use Rattle.run_results.specs.Inside.ResultFields.{results_of, AreSound};

    ghost Value = { ResultParts };

    ghost view = { results_of };

    ghost invariant = { AreSound };
}

impl<'a> Results<'a> {
    /// The results of a run of the plan that had these events. An event of a node that the plan lacks tells nothing. It
    /// takes one pass over the events.
    pub fn of(alloc: Global, plan: &'a Plan, events: &'a [Event]) -> Result<Results<'a>, AllocError>
        ensures plan { IfOk result (λ results. results.plan ≡ plan.now) }
        ensures events { IfOk result (λ results. results.events ≡ events.now) }
    {
        let tally = Tally::of(alloc, plan, events)?;
        Ok(Results {
            plan,
            events,
            tally,
        })
    }

    /// Twelve counts: of containers those that were found, skipped, started, aborted, successful
    /// and failed, then the same of tests. A node that is both counts in both, node 0 in none.
    /// Spares are found where they were registered. A node below a skipped one counts as skipped,
    /// unless it is a spare. It takes no memory.
    pub fn counts(&self) -> [u32; 12]
        ensures counts { result ≡ counts_of self.now.plan self.now.events }
        ensures skipped { SkipsReachBelow self.now.plan.tree self.now.events }
    {
        self.tally.counts().twelve()
    }

    /// How many tests were found: those that are no spares, and the spares that were registered. It takes no memory.
    pub fn tests_found(&self) -> usize
        ensures { result ≡ tests_found self.now.plan self.now.events }
    {
        self.tally.counts().tests.found as usize
    }

    /// Whether a container or a test failed. It takes no memory.
    pub fn failed(&self) -> bool
        ensures failed { result ≡ has_failed self.now.plan self.now.events }
        ensures node { IsTrue result ↔ HasFailed self.now.plan self.now.events }
    {
        any_failed(self.tally.told())
    }

    /// A heading, and twelve lines with the counts.
    pub fn summary_text(&self, alloc: Global) -> Result<String, AllocError>
        ensures text { IfOk result (λ text. string_bytes text ≡ summary_of (counts_of self.now.plan self.now.events)) }
        ensures skipped { IfOk result (λ _. SkipsReachBelow self.now.plan.tree self.now.events) }
    {
        let mut text = String::from_str(alloc, "Test run finished\n")?;
        push_counts(&mut text, self.counts())?;
        Ok(text)
    }

    /// The tree: a line for each node that started or was skipped, below the line of its parent; a node whose parent
    /// has none has no line either. In Unicode or in ASCII.
    pub fn tree_text(
        &self,
        alloc: Global,
        texts: &Texts,
        theme: Theme,
    ) -> Result<String, AllocError>
        ensures text { IfOk result (λ text. string_bytes text ≡ tree_of theme self.now.plan texts.now self.now.events) }
        ensures levels { IfOk result (λ text. (levels : ℕ) → size self.now.plan.tree ≤ levels →
            string_bytes text ≡ lines_below (drawn_of theme self.now.plan texts.now self.now.events) levels [] 0) }
    {
        draw(alloc, self.plan.tree(), self.tally.told(), texts, theme)
    }

    /// The feed: one line for each event, in their order.
    pub fn feed_text(&self, alloc: Global, texts: &Texts) -> Result<String, AllocError>
        ensures { IfOk result (λ feed. string_bytes feed ≡ feed_of self.now.plan texts.now self.now.events) }
    {
        feed_text(alloc, self.plan, self.events, texts)
    }
}

/// A heading, and twelve lines with the counts of these events on the plan.
pub fn summary_text(alloc: Global, plan: &Plan, events: &[Event]) -> Result<String, AllocError>
    ensures text { IfOk result (λ text. string_bytes text ≡ summary_of (counts_of plan.now events.now)) }
    ensures skipped { IfOk result (λ _. SkipsReachBelow plan.now.tree events.now) }
{
    Results::of(alloc, plan, events)?.summary_text(alloc)
}

/// The tree of these events: a line for each node that started or was skipped, below the line of
/// its parent; a node whose parent has none has no line either. In Unicode or in ASCII.
pub fn tree_text(
    alloc: Global,
    plan: &Plan,
    events: &[Event],
    texts: &Texts,
    theme: Theme,
) -> Result<String, AllocError>
    ensures text { IfOk result (λ text. string_bytes text ≡ tree_of theme plan.now texts.now events.now) }
    ensures levels { IfOk result (λ text. (levels : ℕ) → size plan.now.tree ≤ levels →
        string_bytes text ≡ lines_below (drawn_of theme plan.now texts.now events.now) levels [] 0) }
{
    Results::of(alloc, plan, events)?.tree_text(alloc, texts, theme)
}
