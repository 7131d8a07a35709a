//! One who watches a run, and another beside it.

ghost use Rattle.std.specs.Prelude.{◌≡◌, ◌∷◌, []};
ghost use Rattle.listeners.specs.Listeners.{telling};
ghost use Rattle.listeners.specs.Observing.{HasSeenMore};

use listeners::Observer;
use plan_events::{Event, Texts};
use resource_locks::Plan;

/// One who watches a run and another, both of whom were lent: each event is shown to the first, and then to the other.
#[derive(Drop)]
pub struct Beside<'v, 'b, V: Observer, B: Observer> {
    pub observer: &'v mut V,
    pub other: &'b mut B,
}

impl<'v, 'b, V: Observer, B: Observer> Beside<'v, 'b, V, B> {
    /// Both watch a run, and each is shown all of it.
    pub fn new(observer: &'v mut V, other: &'b mut B) -> Beside<'v, 'b, V, B>
        ensures same { result.observer.ghost_name ≡ observer.entry.ghost_name }
        ensures lent { result.observer.now ≡ observer.old }
        ensures other { result.other.now ≡ other.old }
    {
        Beside { observer, other }
    }
}

/// Shows a observer this event of the plan.
fn show<V: Observer>(observer: &mut V, plan: &Plan, texts: &Texts, event: Event)
    ensures { HasSeenMore V.saw plan.now (telling texts.now event ∷ []) observer.old observer.new }
{
    observer.see(plan, texts, event);
}

impl<'v, 'b, V: Observer, B: Observer> Observer for Beside<'v, 'b, V, B> {
    ghost use Rattle.report_files.specs.Besides.{BothSaw};

    ghost saw = { BothSaw V.saw B.saw };

    fn see(&mut self, plan: &Plan, texts: &Texts, event: Event) {
        let event = &event;
        show(&mut *self.observer, plan, texts, *event);
        show(&mut *self.other, plan, texts, *event);
    }

    fn idle(&mut self) {
        self.observer.idle();
        self.other.idle();
    }
}
