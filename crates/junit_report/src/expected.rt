//! What a run prints that does not fail fast is decided by its tree and the replies of its jobs:
//! every complete legal history, of any number of workers, gives the same tree, XML, counts, tests
//! and failure. There is no code here, only definitions and the theorem.

ghost use Rattle.std.specs.Prelude.{◌≡◌, ◌<◌, ℕ, List, false};
ghost use Rattle.descriptor.specs.Nodes.{IsTree, size};
ghost use Rattle.event_history.specs.Expected.{HasOneReply};
ghost use Rattle.event_history.specs.History.{IsLegal, IsComplete, IsTextOf};
ghost use Rattle.junit_report.specs.Expectations.{IsPrintedAsExpected};
ghost use Rattle.plan_events.specs.declared.event.Event.{Event};
ghost use Rattle.plan_events.specs.declared.outcome.Reply.{Reply};
ghost use Rattle.plan_events.specs.Texts.{TextParts, text_at};
ghost use Rattle.resource_locks.specs.Plans.{PlanParts};

/// Of a plan that does not fail fast, where each job has one reply, what is printed of a complete
/// legal history is what is expected.
pub fn printed_as_expected()
    ensures printed { (p : PlanParts) (reply : ℕ → Reply) (replies : ℕ → List Reply) (workers : ℕ) (h : List Event)
        (texts : TextParts) → IsTree p.tree → HasOneReply reply replies → p.fail_fast ≡ false →
        IsLegal p replies workers h → IsComplete p h →
        ((n : ℕ) → n < size p.tree → IsTextOf p replies h n (text_at texts n)) → IsPrintedAsExpected p reply h texts }
{}
