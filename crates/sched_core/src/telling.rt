//! The steps that publish and show events, and the one that raises a failure.

ghost use Rattle.std.specs.Prelude.{◌≡◌, ◌<◌, ℕ, Some, length};
ghost use Rattle.descriptor.specs.Nodes.{size};
ghost use Rattle.plan_events.specs.declared.event.Event.{Event as EventValue};
ghost use Rattle.scheduling.specs.Rows.{drawn, draw_row, show_row, shows, raise_row};
ghost use Rattle.scheduling.specs.Shown.{named};
ghost use Rattle.scheduling.specs.declared.task.Opening.{Opening as OpeningValue};
ghost use Rattle.scheduling.specs.declared.task.Closing.{Closing as ClosingValue};
ghost use Rattle.scheduling.specs.declared.task.Closing.TheVariants.{Raising};
ghost use Rattle.scheduling.specs.declared.task.Task.TheVariants.{Opens, Closes};
ghost use Rattle.scheduling.specs.declared.seat.Hand.{Hand as HandValue};
ghost use Rattle.scheduling.specs.Due.{event_due};
ghost use Rattle.sched_core.specs.Inside.Bounds.{HasPlace};
ghost use Rattle.sched_core.specs.Inside.Fields.{state_of, seated, IsAnswered, KeepsRoom};

use crate::fault::NotEnabled;
use crate::machine::Machine;
use plan_events::Event;
use resource_locks::Plan;
use scheduling::{
    Hand, Seat, Task, after_draw, after_show, due_event, due_raise, giving, named_by,
};

impl Machine {
    /// Puts an event by the worker at this place at the next place of the history, not shown yet.
    fn publish(&mut self, place: u8, event: Event, seat: Seat)
        requires place { place < length self.old.seats.items }
        requires room { HasPlace self.old }
        ensures state { state_of self.new ≡ drawn (state_of self.old) place event seat }
        ensures room { KeepsRoom self.old self.new }
    {
        let Ok(()) = self.published.push(event) else {
            unreachable!()
        };
        let Ok(()) = self.shown.push(false) else {
            unreachable!()
        };
        self.seats[usize::from(place)] = seat;
    }

    pub(crate) fn draw(
        &mut self,
        place: u8,
        task: Task,
        hand: Option<Hand>,
    ) -> Result<(), NotEnabled>
        requires place { place < length self.old.seats.items }
        requires few { place < 64 }
        requires hand { (h : HandValue) → hand ≡ Some h → h.registered < 65535 }
        requires room { (e : EventValue) → event_due place task ≡ Some e → HasPlace self.old }
        ensures { IsAnswered self.old (draw_row (state_of self.old) place (seated task hand) task) result self.new }
    {
        let task = &task;
        let Some(event) = due_event(place, *task) else {
            return Err(NotEnabled);
        };
        let seat = after_draw(self.published.len(), *task, hand);
        self.publish(place, event, seat);
        Ok(())
    }

    /// The event at a place is shown, and the worker goes on.
    fn show_at(&mut self, place: u8, seat: Seat, index: usize)
        requires place { place < length self.old.seats.items }
        requires inside { index < length self.old.shown.items }
        ensures state { state_of self.new ≡ shows (state_of self.old) place seat index }
        ensures room { KeepsRoom self.old self.new }
    {
        self.shown[index] = true;
        self.seats[usize::from(place)] = seat;
    }

    pub(crate) fn show(
        &mut self,
        plan: &Plan,
        place: u8,
        task: Task,
        hand: Option<Hand>,
    ) -> Result<(), NotEnabled>
        requires place { place < length self.old.seats.items }
        requires few { place < 64 }
        requires opens { (n : ℕ) (d : OpeningValue) → task ≡ Opens n d → n < size plan.now.tree }
        requires closes { (n : ℕ) (d : ClosingValue) → task ≡ Closes n d → n < size plan.now.tree }
        requires shown { (i : ℕ) (e : EventValue) → named place task ≡ Some (i, e) → i < length self.old.shown.items }
        ensures { IsAnswered self.old (show_row plan.now (state_of self.old) place (seated task hand) task) result
            self.new }
    {
        let task = &task;
        let Some((index, _event)) = named_by(place, *task) else {
            return Err(NotEnabled);
        };
        let seat = after_show(plan, *task, hand);
        self.show_at(place, seat, index);
        Ok(())
    }

    pub(crate) fn raise(
        &mut self,
        plan: &Plan,
        place: u8,
        task: Task,
        hand: Option<Hand>,
    ) -> Result<(), NotEnabled>
        requires place { place < length self.old.seats.items }
        requires closes { (n : ℕ) (d : ClosingValue) → task ≡ Closes n d → n < size plan.now.tree }
        requires raises { (n : ℕ) → task ≡ Closes n Raising → self.old.cancel < 65535 }
        ensures { IsAnswered self.old (raise_row plan.now (state_of self.old) place (seated task hand) task) result
            self.new }
    {
        let Some(node) = due_raise(task) else {
            return Err(NotEnabled);
        };
        self.cancel += 1;
        let left = plan.held(node).locks().len();
        self.go(place, hand, Task::Closes(node, giving(left)));
        Ok(())
    }
}
