//! The steps by which a worker comes to a node, and its look at the status of one.

ghost use Rattle.std.specs.Prelude.{◌≡◌, ◌<◌, ◌==◌, ◌&&◌, ℕ, true, None, IfOk, IfErr};
ghost use Rattle.descriptor.specs.Nodes.{size};
ghost use Rattle.scheduling.specs.Rows.{is_of_hand as is_of_hand_of};
ghost use Rattle.scheduling.specs.declared.status.NodeStatus.TheVariants.{Settled};
ghost use Rattle.scheduling.specs.declared.task.Task.TheVariants.{Free};
ghost use Rattle.table_rule.specs.Moments.{HasFound};
ghost use Rattle.table_rule.specs.Plays.{claimed_seat, finds_over};
ghost use Rattle.table_contents.specs.Reading.{status_read};
ghost use Rattle.run_table.specs.Handles.{plan_at, view_at, worker_at, IsUnchanged};
ghost use Rattle.run_table.specs.Seats.{IsSeatOf, IsMove, SameSeat, seated};

use crate::table::RunTable;
use crate::worker::WorkerSeat;
use descriptor::NodeId;
use plan_events::Job;
use scheduling::{NodeStatus, Task, claims, is_of_hand};
use table_contents::{NotEnabled, status_from_word, status_to_word};
use table_rule::{Claims, LooksAt};

impl<B: Job> WorkerSeat<B> {
    /// Claims a node that is offered to any. A worker with a task, or with a factory in hand, has
    /// none to claim; and where the node is not offered to any, nothing changes.
    pub fn claim(&mut self, table: &RunTable<B>, node: NodeId) -> Result<Task, NotEnabled>
        requires { IsSeatOf table.now.table self.old.seat }
        ensures same { SameSeat self.old.seat self.new.seat }
        ensures done { IfOk result (λ t. (self.old.task ≡ Free) × (self.old.hand ≡ None)
            × (node < size (plan_at self.old.seat).tree) × IsMove self.old.seat self.new.seat
            (claimed_seat (plan_at self.old.seat) (seated self.old.task self.old.hand) node) t) }
        ensures refused { IfErr result (λ _. IsUnchanged self.old.seat self.new.seat) }
    {
        let (Task::Free, None) = (self.task, self.hand) else {
            return Err(NotEnabled);
        };
        if node.index() >= table.nodes() {
            return Err(NotEnabled);
        }
        let offered = status_to_word(NodeStatus::Ready(None));
        let claimed = status_to_word(NodeStatus::Claimed(self.number));
        let found = table
            .table
            .shared
            .compare_exchange::<Claims>(&mut self.seat, node.index(), offered, claimed);
        if found != offered {
            return Err(NotEnabled);
        }
        self.task = Task::Opens(node, claims(&table.plan, node));
        self.answer = None;
        Ok(self.task)
    }

    /// Claims a node that is offered to this worker alone. A worker with a factory in hand has the
    /// dynamic tests of that to claim. Where the node is not offered to this worker, nothing
    /// changes.
    pub fn own(&mut self, table: &RunTable<B>, node: NodeId) -> Result<Task, NotEnabled>
        requires { IsSeatOf table.now.table self.old.seat }
        ensures same { SameSeat self.old.seat self.new.seat }
        ensures done { IfOk result (λ t. (self.old.task ≡ Free)
            × (is_of_hand_of (plan_at self.old.seat) self.old.hand node ≡ true)
            × (node < size (plan_at self.old.seat).tree) × IsMove self.old.seat self.new.seat
            (claimed_seat (plan_at self.old.seat) (seated self.old.task self.old.hand) node) t) }
        ensures refused { IfErr result (λ _. IsUnchanged self.old.seat self.new.seat) }
    {
        let Task::Free = self.task else {
            return Err(NotEnabled);
        };
        if node.index() >= table.nodes() || !is_of_hand(&table.plan, &self.hand, node) {
            return Err(NotEnabled);
        }
        let offered = status_to_word(NodeStatus::Ready(Some(self.number)));
        let claimed = status_to_word(NodeStatus::Claimed(self.number));
        let found = table
            .table
            .shared
            .compare_exchange::<Claims>(&mut self.seat, node.index(), offered, claimed);
        if found != offered {
            return Err(NotEnabled);
        }
        self.task = Task::Opens(node, claims(&table.plan, node));
        self.answer = None;
        Ok(self.task)
    }

    /// Looks at the status of a node, for a worker that is free, and says what it was at that moment. That node 0 is
    /// settled is kept in what the seat knows.
    pub fn look_at(&mut self, table: &RunTable<B>, node: NodeId) -> Result<NodeStatus, NotEnabled>
        requires { IsSeatOf table.now.table self.old.seat }
        ensures same { SameSeat self.old.seat self.new.seat }
        ensures done { IfOk result (λ s. (word : ℕ) × (s ≡ status_read word)
            × (worker_at self.new.seat ≡ finds_over ((node == 0) && (word == 1)) (worker_at self.old.seat))) }
        ensures found { IfOk result (λ s. HasFound B.answers (view_at self.new.seat) node s) }
        ensures over { IfOk result (λ s. node ≡ 0 → s ≡ Settled → (worker_at self.new.seat).over ≡ true) }
        ensures refused { IfErr result (λ _. IsUnchanged self.old.seat self.new.seat
            × (self.old.task ≡ Free → node < size (plan_at self.old.seat).tree → ⊥)) }
    {
        let Task::Free = self.task else {
            return Err(NotEnabled);
        };
        if node.index() >= table.nodes() {
            return Err(NotEnabled);
        }
        let word = table
            .table
            .shared
            .load::<LooksAt>(&mut self.seat, node.index());
        Ok(status_from_word(word))
    }
}
