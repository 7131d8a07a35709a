//! What is noted of a node by its event alone.

ghost use Rattle.std.specs.Prelude.{◌≡◌, ◌<◌, Some};
ghost use Rattle.descriptor.specs.Nodes.{size, reason_of};
ghost use Rattle.plan_events.specs.Texts.{text_of_note};
ghost use Rattle.event_history.specs.History.{reason_or_cancelled};
ghost use Rattle.scheduling.specs.Notes.{skip_note as skip_note_of};

use descriptor::NodeId;
use plan_events::Note;
use resource_locks::Plan;

/// What is noted of a skipped node: its own reason, if it is disabled, and else that the plan was cancelled.
pub fn skip_note(plan: &Plan, node: NodeId) -> Note
    requires { node < size plan.now.tree }
    ensures note { result ≡ skip_note_of plan.now node }
    ensures text { text_of_note (reason_of plan.now.tree node) result ≡ Some
        (reason_or_cancelled (reason_of plan.now.tree node)) }
{
    match plan.tree().reason(node) {
        Some(_) => Note::Reason,
        None => Note::Cancelled,
    }
}
