//! What the plan decides for a worker: how it goes on with a node.

ghost use Rattle.std.specs.Prelude.{◌≡◌, ◌<◌, ◌+◌, ◌==◌, ◌&&◌, ◌||◌, nat_lt, ℕ, Some, length, true};
ghost use Rattle.descriptor.specs.Nodes.{size, is_factory_at};
ghost use Rattle.scheduling.specs.Answers.{reply_by};
ghost use Rattle.scheduling.specs.Choices.{lock_from as lock_from_of, begins as begins_of, claims as claims_of};
ghost use Rattle.scheduling.specs.Choices.{keys_count, mode_at, limit_at, key_at, admits as admits_of, taken as taken_of};
ghost use Rattle.scheduling.specs.Choices.{given_back as given_back_of, same_word as same_word_of};
ghost use Rattle.scheduling.specs.Choices.{giving as giving_of, after_finish as after_finish_of};
ghost use Rattle.scheduling.specs.Choices.{offered_to as offered_to_of, ending as ending_of};
ghost use Rattle.scheduling.specs.Choices.{is_pulled as is_pulled_of, pulled_result as pulled_result_of};
ghost use Rattle.scheduling.specs.Choices.{next_spare as next_spare_of, awaited as awaited_of, after_job, hand_job};
ghost use Rattle.scheduling.specs.Rows.{back_to as back_to_of, after_start as after_start_of, weighed as weighed_of};
ghost use Rattle.scheduling.specs.Rows.{ends_or_free as ends_or_free_of};
ghost use Rattle.scheduling.specs.State.{subject};
ghost use Rattle.event_history.specs.Plans.{is_same as is_same_of, pulls_job as pulls_job_of};
ghost use Rattle.event_history.specs.Results.{jobs_of};
ghost use Rattle.scheduling.specs.declared.seat.Hand.{Hand as HandValue};
ghost use Rattle.scheduling.specs.declared.seat.Seat.{Seat as SeatValue};

use crate::answer::Answer;
use crate::lock_word::LockWord;
use crate::seat::{Hand, Seat};
use crate::task::{Closing, Opening, Task};
use descriptor::{BodyId, LockMode, Mode, NodeId};
use plan_events::Status;
use resource_locks::Plan;

/// How a node goes on whose first so many keys are taken.
pub fn lock_from(plan: &Plan, node: NodeId, taken: usize) -> Opening
    requires { node < size plan.now.tree }
    ensures { result ≡ lock_from_of plan.now node taken }
{
    if taken < plan.held(node).locks().len() {
        Opening::Locking(taken)
    } else {
        Opening::Beginning(false)
    }
}

/// How a node goes on whose key at this place, from 0, is taken, after all before it.
pub fn lock_after(plan: &Plan, node: NodeId, place: usize) -> Opening
    requires node { node < size plan.now.tree }
    requires place { place < keys_count plan.now node }
    ensures { result ≡ lock_from_of plan.now node (place + 1) }
{
    let count = plan.held(node).locks().len();
    if place + 1 < count {
        Opening::Locking(place + 1)
    } else {
        Opening::Beginning(false)
    }
}

/// How a node goes on that is to be skipped, or is not.
pub fn begins(plan: &Plan, node: NodeId, skip: bool) -> Opening
    requires { node < size plan.now.tree }
    ensures { result ≡ begins_of plan.now node skip }
{
    if skip {
        Opening::Beginning(true)
    } else {
        lock_from(plan, node, 0)
    }
}

/// How a node goes on that was claimed: in a plan that fails fast it is asked first whether the plan is cancelled.
pub fn claims(plan: &Plan, node: NodeId) -> Opening
    requires { node < size plan.now.tree }
    ensures { result ≡ claims_of plan.now node }
{
    let disabled = plan.tree().reason(node).is_some();
    if plan.fail_fast() && node != NodeId::ROOT && !disabled {
        Opening::Noticing
    } else {
        begins(plan, node, disabled)
    }
}

/// The number of the key at this place, counted from 0, of those that a node holds.
pub fn key_at_place(plan: &Plan, node: NodeId, place: usize) -> usize
    requires node { node < size plan.now.tree }
    requires place { place < keys_count plan.now node }
    ensures key { result ≡ key_at plan.now node place }
    ensures inside { result < length plan.now.keys }
{
    plan.key_number(node, place)
}

/// The mode in which it holds that key.
pub fn mode_at_place(plan: &Plan, node: NodeId, place: usize) -> LockMode
    requires node { node < size plan.now.tree }
    requires place { place < keys_count plan.now node }
    ensures { result ≡ mode_at plan.now node place }
{
    plan.held(node).locks()[place].mode
}

/// How many nodes may hold that key at once; 0 if that is not limited.
pub fn limit_at_place(plan: &Plan, node: NodeId, place: usize) -> u8
    requires node { node < size plan.now.tree }
    requires place { place < keys_count plan.now node }
    ensures { result ≡ limit_at plan.now node place }
{
    plan.limit(key_at_place(plan, node, place))
}

/// Whether a key's word lets the key be taken in this mode, if so many nodes may hold it at once; 0 is for any number.
pub fn admits(limit: u8, mode: LockMode, word: LockWord) -> bool
    ensures { result ≡ admits_of limit mode word }
{
    match (mode, word) {
        (LockMode::Read, LockWord::Readers(readers)) => limit == 0 || readers < u16::from(limit),
        (LockMode::ReadWrite, LockWord::Readers(readers)) => readers == 0,
        (_, LockWord::Written) => false,
    }
}

/// A key's word after the key is taken in this mode.
pub fn taken(mode: LockMode, word: LockWord) -> LockWord
    requires { (n : ℕ) → word ≡ LockWord.Readers n → n < 65535 }
    ensures { result ≡ taken_of mode word }
{
    match (mode, word) {
        (LockMode::Read, LockWord::Readers(readers)) => LockWord::Readers(readers + 1),
        (LockMode::Read, LockWord::Written) | (LockMode::ReadWrite, _) => LockWord::Written,
    }
}

/// A key's word after the key is given back in this mode.
pub fn given_back(mode: LockMode, word: LockWord) -> LockWord
    ensures { result ≡ given_back_of mode word }
{
    match (mode, word) {
        (LockMode::Read, LockWord::Readers(readers)) => LockWord::Readers(readers.saturating_sub(
            1,
        )),
        (LockMode::Read, LockWord::Written) => LockWord::Written,
        (LockMode::ReadWrite, _) => LockWord::Readers(0),
    }
}

/// How a node goes on whose next key has this word.
pub fn weighed(plan: &Plan, node: NodeId, index: usize, word: LockWord) -> Opening
    requires node { node < size plan.now.tree }
    requires key { index < keys_count plan.now node }
    ensures { result ≡ weighed_of plan.now node index word }
{
    let limit = limit_at_place(plan, node, index);
    if admits(limit, mode_at_place(plan, node, index), word) {
        Opening::Weighed(index, word)
    } else {
        Opening::Backing(index)
    }
}

/// Whether a key's word is still the one that was seen.
pub fn is_same_word(word: LockWord, seen: LockWord) -> bool
    ensures { result ≡ same_word_of word seen }
{
    match (word, seen) {
        (LockWord::Readers(a), LockWord::Readers(b)) => a == b,
        (LockWord::Written, LockWord::Written) => true,
        _ => false,
    }
}

/// How a node goes on where so many keys are left to give back.
pub fn giving(left: usize) -> Closing
    ensures { result ≡ giving_of left }
{
    if left == 0 {
        Closing::Settling
    } else {
        Closing::Giving(left)
    }
}

/// How a node goes on whose finish, with this status, is shown.
pub fn after_finish(plan: &Plan, node: NodeId, status: Status) -> Closing
    requires { node < size plan.now.tree }
    ensures { result ≡ after_finish_of plan.now node status }
{
    if plan.fail_fast() && status.is_failed() {
        Closing::Raising
    } else {
        giving(plan.held(node).locks().len())
    }
}

/// Whether a node is executed in the thread of its parent.
pub fn is_same(plan: &Plan, node: NodeId) -> bool
    requires { node < size plan.now.tree }
    ensures { result ≡ is_same_of plan.now node }
{
    matches!(plan.mode(node), Mode::SameThread)
}

/// To whom the worker at a place offers a child: to itself alone, where the child is executed in its parent's thread.
pub fn offered_to(plan: &Plan, place: u8, child: NodeId) -> Option<u8>
    requires { child < size plan.now.tree }
    ensures { result ≡ offered_to_of plan.now place child }
{
    if is_same(plan, child) {
        Some(place)
    } else {
        None
    }
}

/// To whom a node is offered again that the worker at a place gives up.
pub fn back_to(plan: &Plan, place: u8, node: NodeId) -> Option<u8>
    requires { node < size plan.now.tree }
    ensures { result ≡ back_to_of plan.now place node }
{
    if node == NodeId::ROOT {
        None
    } else {
        offered_to(plan, place, node)
    }
}

/// Whether a node is a factory with a body.
pub fn pulls_job(plan: &Plan, node: NodeId) -> bool
    requires { node < size plan.now.tree }
    ensures { result ≡ pulls_job_of plan.now node }
{
    plan.tree().role(node).is_factory() && plan.tree().body(node).is_some()
}

/// What a worker has after the start of its node is shown: a factory with a body is taken in hand.
pub fn after_start(plan: &Plan, hand: Option<Hand>, node: NodeId) -> Seat
    requires { node < size plan.now.tree }
    ensures { result ≡ after_start_of plan.now (record { task = Task.Free; hand = hand }) node }
{
    if pulls_job(plan, node) {
        let hand = Hand {
            factory: node,
            registered: 0,
            waiting: None,
        };
        Seat {
            task: Task::Free,
            hand: Some(hand),
        }
    } else {
        Seat {
            task: Task::Opens(node, Opening::Awaiting),
            hand,
        }
    }
}

/// The body whose reply the task of a seat awaits.
pub fn awaited(plan: &Plan, seat: &Seat) -> Option<BodyId>
    requires task { (n : ℕ) → subject seat.now.task ≡ Some n → n < size plan.now.tree }
    requires hand { (hand : HandValue) → seat.now.hand ≡ Some hand → hand.factory < size plan.now.tree }
    ensures { result ≡ awaited_of plan.now seat.now seat.now.task }
{
    let task = seat.task;
    match task {
        Task::Free => hand_body(plan, seat.hand),
        Task::Opens(node, opening) => opening_body(plan, node, opening),
        Task::Closes(node, closing) => closing_body(plan, node, closing),
    }
}

/// The body of the factory in hand.
fn hand_body(plan: &Plan, hand: Option<Hand>) -> Option<BodyId>
    requires { (h : HandValue) → hand ≡ Some h → h.factory < size plan.now.tree }
    ensures { result ≡ hand_job plan.now hand }
{
    plan.tree().body(hand?.factory)
}

/// The body of a node, where its reply is awaited.
fn opening_body(plan: &Plan, node: NodeId, opening: Opening) -> Option<BodyId>
    requires { node < size plan.now.tree }
    ensures { (seat : SeatValue) → result ≡ awaited_of plan.now seat (Task.Opens node opening) }
{
    match opening {
        Opening::Awaiting => plan.tree().body(node),
        _ => None,
    }
}

/// The after-body of a node, where its reply is awaited.
fn closing_body(plan: &Plan, node: NodeId, closing: Closing) -> Option<BodyId>
    requires { node < size plan.now.tree }
    ensures { (seat : SeatValue) → result ≡ awaited_of plan.now seat (Task.Closes node closing) }
{
    match closing {
        Closing::AwaitingAfter => after_run(plan, node),
        _ => None,
    }
}

/// The after-body that is run for a node: that of a container with children.
pub fn after_run(plan: &Plan, node: NodeId) -> Option<BodyId>
    requires { node < size plan.now.tree }
    ensures { result ≡ after_job (jobs_of plan.now node) }
{
    if plan.tree().children(node).is_empty() {
        None
    } else {
        plan.tree().after(node)
    }
}

/// How a node goes on that has nothing outstanding any more, with this status: its after-body is run, or it ends.
pub fn ending(plan: &Plan, node: NodeId, status: Status) -> Closing
    requires { node < size plan.now.tree }
    ensures { result ≡ ending_of plan.now node status }
{
    if after_run(plan, node).is_some() {
        Closing::AwaitingAfter
    } else {
        Closing::Ending(status)
    }
}

/// What a worker does next that has taken one from a node's counter: whoever takes the last one ends the node.
pub fn ends_or_free(plan: &Plan, node: NodeId, status: Status, outstanding: usize) -> Task
    requires { node < size plan.now.tree }
    ensures { result ≡ ends_or_free_of plan.now node status outstanding }
{
    if outstanding == 1 {
        Task::Closes(node, ending(plan, node, status))
    } else {
        Task::Free
    }
}

/// The dynamic test of a factory that is the next to be registered, where so many are.
pub fn next_spare(plan: &Plan, factory: NodeId, registered: usize) -> Option<NodeId>
    requires inside { factory < size plan.now.tree }
    requires factory { is_factory_at plan.now.tree factory ≡ true }
    ensures { result ≡ next_spare_of plan.now factory registered }
{
    plan.tree().children(factory).get(registered).copied()
}

/// Whether a factory is done of which so many dynamic tests are registered: the answer has no
/// further one, or none is left.
pub fn is_pulled(plan: &Plan, factory: NodeId, registered: usize, answer: Answer) -> bool
    requires inside { factory < size plan.now.tree }
    requires factory { is_factory_at plan.now.tree factory ≡ true }
    ensures { result ≡ is_pulled_of plan.now factory registered (reply_by answer) }
{
    are_pulled(
        registered,
        plan.tree().children(factory).len(),
        usize::from(answer.pulls),
    )
}

/// Whether so many are registered as are asked for, or all that there are, and they are fewer than are asked for.
fn are_pulled(registered: usize, spares: usize, pulls: usize) -> bool
    ensures { result ≡ ((pulls == registered) || ((registered == spares) && nat_lt registered pulls)) }
{
    pulls == registered || (registered == spares && registered < pulls)
}

/// The result of such a factory: it fails where the answer has more than there are.
pub fn pulled_result(registered: usize, answer: Answer) -> Status
    ensures { result ≡ pulled_result_of registered (reply_by answer) }
{
    if registered < usize::from(answer.pulls) {
        Status::Failed
    } else {
        answer.status
    }
}
