//! Calls `plan_events`: an event goes through its word.

ghost use Rattle.std.specs.Prelude.{◌≡◌, None, Some, false, true};
ghost use Rattle.plan_events.specs.Words.{is_lawful};

use plan_events::Event;

/// The event that is read from an event's word: the same one, if a run may publish it.
pub fn through_word(event: Event) -> Option<Event>
    ensures lawful { is_lawful event ≡ true → result ≡ Some event }
    ensures unlawful { is_lawful event ≡ false → result ≡ None }
{
    if !event.is_lawful() {
        return None;
    }
    Event::from_word(event.to_word())
}
