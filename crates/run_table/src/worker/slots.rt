//! The moves of slots: a job leaves its slot, and its answer comes into it.

ghost use Rattle.std.specs.Prelude.{◌≡◌, ◌<◌, ◌≤◌, ℕ, Some, IfSome, IfNone, None, IfOk, IfErr};
ghost use Rattle.descriptor.specs.Nodes.{size};
ghost use Rattle.resource_locks.specs.Plans.{PlanParts};
ghost use Rattle.scheduling.specs.Choices.{awaited as awaited_of};
ghost use Rattle.table_rule.specs.Slots.{made_of, slot_due, job_at, slot_count, job_with};
ghost use Rattle.table_rule.specs.Picture.{given_by, gives_in, replies_in};
ghost use Rattle.table_rule.specs.Plays.{makes};
ghost use Rattle.table_rule.specs.declared.view.SlotState.TheVariants.{Unmoved, Out, Left, Noted};
ghost use Rattle.run_table.specs.Handles.{about_at, plan_at, worker_at, IsUnchanged};
ghost use Rattle.run_table.specs.Moved.{is_moved, job_slot as job_slot_of};
ghost use Rattle.run_table.specs.Seats.{IsSeatOf, SameSeat, seated};
ghost use Rattle.plan_events.specs.declared.outcome.Reply.{Reply as ReplyValue};
ghost use Rattle.run_table.specs.Answering.{registered_by, noted_pulls, IsToldAs, MayTell, SaysTold};

use crate::table::RunTable;
use crate::worker::WorkerSeat;
use descriptor::NodeId;
use plan_events::{Job, Note, Status};
use scheduling::{Answer, Closing, Hand, Opening, Seat, Task, awaited};
use table_contents::NotEnabled;
use table_rule::{AnswersIn, Leaves, Lifts, Slot};

/// The slot of this node's job, if it is the one whose answer the seat waits for.
fn job_slot(nodes: usize, task: Task, hand: Option<Hand>, node: NodeId) -> Option<usize>
    requires { nodes ≤ 16384 }
    ensures { (p : PlanParts) → size p.tree ≡ nodes → result ≡ job_slot_of p task hand node }
{
    match task {
        Task::Free => match hand {
            None => None,
            Some(held) => (held.factory == node).then_some(node.index()),
        },
        Task::Opens(opened, opening) => match opening {
            Opening::Awaiting => (opened == node).then_some(node.index()),
            _ => None,
        },
        Task::Closes(closed, closing) => match closing {
            Closing::AwaitingAfter => (closed == node).then_some(nodes + node.index()),
            _ => None,
        },
    }
}

impl<B: Job> WorkerSeat<B> {
    /// Whether it has moved this slot.
    fn has_moved(&self, slot: usize) -> bool
        requires { slot < slot_count (plan_at self.now.seat) }
        ensures { result ≡ is_moved (made_of (worker_at self.now.seat).slots slot) }
    {
        self.moved.has(slot)
    }

    /// Takes the job out of this slot, which it has not moved: it takes the slot, and gives it back empty.
    fn take_job(&mut self, table: &RunTable<B>, slot: usize) -> B
        requires table { IsSeatOf table.now.table self.old.seat }
        requires inside { slot < slot_count (plan_at self.old.seat) }
        requires due { slot_due (plan_at self.old.seat) (worker_at self.old.seat).seat
            (worker_at self.old.seat).seat.task ≡ Some slot }
        requires unmoved { made_of (worker_at self.old.seat).slots slot ≡ Unmoved }
        requires job { (number : ℕ) × (job_at (plan_at self.old.seat) slot ≡ Some number) }
        ensures same { SameSeat self.old.seat self.new.seat }
        ensures job { (number : ℕ) × (job_at (plan_at self.old.seat) slot ≡ Some number)
            × (job_with (about_at self.old.seat).jobs number ≡ Some result) }
        ensures left { worker_at self.new.seat ≡ makes slot Left None
            (makes slot Out None (worker_at self.old.seat)) }
        ensures task { self.new.task ≡ self.old.task }
        ensures hand { self.new.hand ≡ self.old.hand }
    {
        table.table.shared.load::<Lifts>(&mut self.seat, 0);
        let body = table
            .table
            .shared
            .exchange(&mut self.seat, slot, Slot::Empty);
        table.table.shared.load::<Leaves>(&mut self.seat, 0);
        self.moved.put(slot);
        self.answer = None;
        let Slot::Body(job) = body else {
            unreachable!()
        };
        job
    }

    /// The job of this node, if the seat waits for its answer and has not moved its slot: the one
    /// that was handed in for it. Else nothing changes.
    pub fn body_out(&mut self, table: &RunTable<B>, node: NodeId) -> Option<B>
        requires { IsSeatOf table.now.table self.old.seat }
        ensures same { SameSeat self.old.seat self.new.seat }
        ensures task { self.new.task ≡ self.old.task }
        ensures hand { self.new.hand ≡ self.old.hand }
        ensures some { IfSome result (λ b. (slot : ℕ) × (number : ℕ)
            × (job_slot_of (plan_at self.old.seat) self.old.task self.old.hand node ≡ Some slot)
            × (made_of (worker_at self.old.seat).slots slot ≡ Unmoved)
            × (awaited_of (plan_at self.old.seat) (seated self.old.task self.old.hand) self.old.task ≡ Some
            number) × (job_with (about_at self.old.seat).jobs number ≡ Some b)
            × (worker_at self.new.seat ≡ makes slot Left None (makes slot Out None (worker_at self.old.seat)))) }
        ensures replies { IfSome result
            (λ b. (number : ℕ) → awaited_of (plan_at self.old.seat) (seated self.old.task self.old.hand)
            self.old.task ≡ Some number → replies_in B.answers (about_at self.old.seat).jobs number ≡ B.answers b) }
        ensures given { IfSome result
            (λ b. (number : ℕ) → awaited_of (plan_at self.old.seat) (seated self.old.task self.old.hand)
            self.old.task ≡ Some number → (reply : ReplyValue) → B.gives b reply → gives_in B.gives
            (about_at self.old.seat).jobs number reply) }
        ensures none { IfNone result (IsUnchanged self.old.seat self.new.seat
            × ((slot number : ℕ) → job_slot_of (plan_at self.old.seat) self.old.task self.old.hand node ≡ Some
            slot → awaited_of (plan_at self.old.seat) (seated self.old.task self.old.hand) self.old.task ≡ Some
            number → made_of (worker_at self.old.seat).slots slot ≡ Unmoved → ⊥)) }
    {
        let Some(slot) = job_slot(table.nodes(), self.task, self.hand, node) else {
            return None;
        };
        let seat = Seat {
            task: self.task,
            hand: self.hand,
        };
        let Some(_) = awaited(&table.plan, &seat) else {
            return None;
        };
        if self.has_moved(slot) {
            return None;
        }
        Some(self.take_job(table, slot))
    }
}

/// How many dynamic tests are registered of the factory whose job is awaited: none, if that is no factory's.
fn registered(task: Task, hand: Option<Hand>) -> usize
    ensures { result ≡ registered_by task hand }
{
    match task {
        Task::Free => match hand {
            None => 0,
            Some(held) => held.registered,
        },
        Task::Opens(_, _) => 0,
        Task::Closes(_, _) => 0,
    }
}

/// The pulls that the slot is told of: where the job asked for more dynamic tests than there are, one more than these.
fn told_pulls(registered: usize, note: &Note) -> u16
    requires { registered < 65535 }
    ensures { result ≡ noted_pulls registered note.now }
{
    match note {
        Note::TooMany => registered as u16 + 1,
        _ => registered as u16,
    }
}

impl<B: Job> WorkerSeat<B> {
    /// Puts this answer into the slot, the job of which has left: it takes the slot, which is
    /// empty, and gives it back with the note and the job.
    fn put_answer(
        &mut self,
        table: &RunTable<B>,
        slot: usize,
        pulls: u16,
        status: Status,
        note: Note,
        job: B,
    )
        requires table { IsSeatOf table.now.table self.old.seat }
        requires inside { slot < slot_count (plan_at self.old.seat) }
        requires due { slot_due (plan_at self.old.seat) (seated self.old.task self.old.hand)
            self.old.task ≡ Some slot }
        requires answer { MayTell (plan_at self.old.seat) (replies_in B.answers (about_at self.old.seat).jobs)
            (given_by B.gives (about_at self.old.seat)) (worker_at self.old.seat).slots (seated self.old.task self.old.hand) slot status note }
        requires said { SaysTold B.says (plan_at self.old.seat) (seated self.old.task self.old.hand) status note job }
        requires pulls { pulls ≡ noted_pulls (registered_by self.old.task self.old.hand) note }
        ensures same { SameSeat self.old.seat self.new.seat }
        ensures told { (reply : ReplyValue) × IsToldAs (plan_at self.old.seat)
            (seated self.old.task self.old.hand) reply status note
            × (worker_at self.new.seat ≡ makes slot (Noted reply) (Some reply)
            (makes slot Out None (worker_at self.old.seat))) }
        ensures task { self.new.task ≡ self.old.task }
        ensures hand { self.new.hand ≡ self.old.hand }
    {
        table.table.shared.load::<Lifts>(&mut self.seat, 0);
        table.table.shared.exchange(
            &mut self.seat,
            slot,
            Slot::Answered(pulls, status, note, job),
        );
        table.table.shared.load::<AnswersIn>(&mut self.seat, 0);
        self.moved.put(slot);
        self.answer = Some(Answer { pulls, status });
    }

    /// Puts the answer of this node's job, which has left, into the job's slot, if the seat waits
    /// for it: how it ended, and its note; and the job. It is for the caller that the job has answered so: by
    /// one of the replies that it may give, which it gave, after as many answers that there is one more dynamic
    /// test as are registered; or, of a factory all of whose tests are registered, by one answer
    /// more; and that the job says so.
    pub fn text_in(
        &mut self,
        table: &RunTable<B>,
        node: NodeId,
        status: Status,
        note: Note,
        job: B,
    ) -> Result<(), NotEnabled>
        requires table { IsSeatOf table.now.table self.old.seat }
        requires answer { (slot : ℕ) → job_slot_of (plan_at self.old.seat) self.old.task self.old.hand
            node ≡ Some slot → MayTell (plan_at self.old.seat)
            (replies_in B.answers (about_at self.old.seat).jobs) (given_by B.gives (about_at self.old.seat))
            (worker_at self.old.seat).slots (seated self.old.task self.old.hand) slot status note }
        requires said { SaysTold B.says (plan_at self.old.seat) (seated self.old.task self.old.hand) status note job }
        ensures same { SameSeat self.old.seat self.new.seat }
        ensures task { self.new.task ≡ self.old.task }
        ensures hand { self.new.hand ≡ self.old.hand }
        ensures told { IfOk result (λ _. (slot : ℕ) × (reply : ReplyValue)
            × (job_slot_of (plan_at self.old.seat) self.old.task self.old.hand node ≡ Some slot)
            × IsToldAs (plan_at self.old.seat) (seated self.old.task self.old.hand) reply status note
            × (worker_at self.new.seat ≡ makes slot (Noted reply) (Some reply)
            (makes slot Out None (worker_at self.old.seat)))) }
        ensures refused { IfErr result (λ _. IsUnchanged self.old.seat self.new.seat
            × (job_slot_of (plan_at self.old.seat) self.old.task self.old.hand node ≡ None)) }
    {
        let Some(slot) = job_slot(table.nodes(), self.task, self.hand, node) else {
            return Err(NotEnabled);
        };
        let pulls = told_pulls(registered(self.task, self.hand), &note);
        self.put_answer(table, slot, pulls, status, note, job);
        Ok(())
    }
}
