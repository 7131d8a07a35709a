//! Who is shown each event of a run, one after the other, on the thread that began it.

ghost use Rattle.std.specs.Prelude.{◌≡◌, ◌∷◌, [], List, true};
ghost use Rattle.listeners.specs.Endings.{ends_plan as is_end, is_finish};

use descriptor::NodeId;
use plan_events::{Event, EventKind, Texts};
use resource_locks::Plan;

/// Is shown each event of a run by the thread that the run was begun on. It may hold what was lent
/// for the run alone, as a writer. The listeners of an `Audience` are one observer.
pub trait Observer: Drop {
    ghost use Rattle.resource_locks.specs.Plans.{PlanParts};
    ghost use Rattle.listeners.specs.Listeners.{Telling, telling};
    ghost use Rattle.listeners.specs.Observing.{HasSeenMore, KeepsSight};

    /// That one which was as the first is as the second, once it has seen these events of this plan
    /// with these texts, in order.
    ghost saw: { PlanParts → Self → Self → List Telling → Type 0 };

    /// Is shown the next event of the plan, and the texts as they are after it.
    fn see(&mut self, plan: &Plan, texts: &Texts, event: Event)
        ensures { HasSeenMore saw plan.now (telling texts.now event ∷ []) self.old self.new };

    /// Has a moment while there is nothing to see: so it can draw anew what changes with the time.
    fn idle(&mut self)
        ensures { KeepsSight saw self.old self.new };
}

/// Nobody observes.
impl Observer for () {
    ghost saw = { λ _ _ _ _. Unit {0} };

    fn see(&mut self, _plan: &Plan, _texts: &Texts, _event: Event) {}

    fn idle(&mut self) {}
}

/// Whether an event of this kind says that its node finished.
pub fn is_finish(kind: EventKind) -> bool
    ensures exact { result ≡ is_finish kind }
    ensures finish { result ≡ true → kind ≡ EventKind.Finished }
{
    matches!(kind, EventKind::Finished)
}

/// Whether the event is the plan's finish, the last event of a run.
pub fn ends_plan(event: Event) -> bool
    ensures exact { result ≡ is_end event }
    ensures finish { result ≡ true → (event.kind ≡ EventKind.Finished) × (event.node ≡ 0) }
{
    is_finish(event.kind) && event.node == NodeId::ROOT
}
