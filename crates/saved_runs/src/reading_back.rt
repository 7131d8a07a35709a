//! What is read from the feed of a run, or from its JSON, is what its events tell; and from each
//! beginning of it, what the first of them tell. There is no code here, only the theorem.

ghost use Rattle.std.specs.Prelude.{ℕ, List};
ghost use Rattle.event_history.specs.History.{IsLegal};
ghost use Rattle.job_times.specs.Timings.{Took};
ghost use Rattle.run_results.specs.Feed.{feed_of};
ghost use Rattle.plan_events.specs.Texts.{TextParts};
ghost use Rattle.plan_events.specs.declared.event.Event.{Event};
ghost use Rattle.plan_events.specs.declared.outcome.Reply.{Reply};
ghost use Rattle.reports.specs.Json.{timed_json_of};
ghost use Rattle.reports.specs.TimeTexts.{AreTimes};
ghost use Rattle.resource_locks.specs.Plans.{PlanParts};
ghost use Rattle.saved_runs.specs.Histories.{HasUids, HasFlatIds, IsReadBack};

/// Of each legal history of a plan whose nodes have unique ids, the feed is read back if no line feed
/// stands in an id, and the JSON whatever stands there and whatever times are told, which are passed
/// over.
pub fn read_back()
    ensures feed { (p : PlanParts) (replies : ℕ → List Reply) (workers : ℕ) (h : List Event) (texts : TextParts) →
        HasUids p → HasFlatIds p → IsLegal p replies workers h → IsReadBack p h (feed_of p texts h) }
    ensures json { (p : PlanParts) (replies : ℕ → List Reply) (workers : ℕ) (h : List Event) (texts : TextParts) (took : Took) →
        AreTimes took → HasUids p → IsLegal p replies workers h → IsReadBack p h (timed_json_of p texts took h) }
{}
