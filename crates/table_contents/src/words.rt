//! The words of the table: the numbers of statuses, of keys and of counters.

ghost use Rattle.std.specs.Prelude.{◌≡◌, ◌+◌, ◌<◌, ◌≤◌, ℕ, nat_lt, true};
ghost use Rattle.plan_events.specs.Words.{is_lawful};
ghost use Rattle.scheduling.specs.Choices.{taken};
ghost use Rattle.scheduling.specs.declared.lock_word.LockWord.TheVariants.{Readers};
ghost use Rattle.scheduling.specs.declared.status.NodeStatus.TheVariants.{Claimed};
ghost use Rattle.table_rule.specs.Rings.{place_word};
ghost use Rattle.table_rule.specs.Words.{status_word, lock_word};
ghost use Rattle.table_rule.specs.Plays.{lock_read, outstanding_in, result_in};
ghost use Rattle.table_contents.specs.Reading.{owner_by, status_read};

use descriptor::LockMode;
use plan_events::{Event, Status};
use scheduling::{LockWord, NodeStatus};

/// The word of a key that is held in READ_WRITE.
const WRITTEN: u64 = 65_536;

/// The number that one place counts in the word of an event that is shown: it stands above the event's own word.
pub const PLACE_UNIT: u64 = 281_474_976_710_656;

/// The word of an event at a place of the history, from 0.
pub fn place_to_word(place: usize, event: Event) -> u64
    requires lawful { is_lawful event ≡ true }
    requires low { place < 65535 }
    ensures { result ≡ place_word place event }
{
    event.to_word() + PLACE_UNIT * (place as u64 + 1)
}

/// Whether a place is less than a ring of so many words ahead of the number of places that are read.
pub fn is_near(place: usize, ring: usize, read: u64) -> bool
    ensures { result ≡ nat_lt place (read + ring) }
{
    place < ring || ((place - ring) as u64) < read
}

/// The word of a status.
pub fn status_to_word(status: NodeStatus) -> u64
    ensures { result ≡ status_word status }
{
    match status {
        NodeStatus::Hidden => 0,
        NodeStatus::Settled => 1,
        NodeStatus::Ready(None) => 2,
        NodeStatus::Ready(Some(owner)) => 2 + 4 * (u64::from(owner) + 1),
        NodeStatus::Claimed(owner) => 3 + 4 * (u64::from(owner) + 1),
    }
}

/// To whom a node is offered, by the number that stands for it.
fn owner_from_number(number: u8) -> Option<u8>
    ensures { result ≡ owner_by number }
{
    if number == 0 { None } else { Some(number - 1) }
}

/// The status with this word.
pub fn status_from_word(word: u64) -> NodeStatus
    ensures { result ≡ status_read word }
{
    if word == 1 {
        return NodeStatus::Settled;
    }
    let owner = (word / 4 % 256) as u8;
    match word % 4 {
        2 => NodeStatus::Ready(owner_from_number(owner)),
        3 => NodeStatus::Claimed(owner.saturating_sub(1)),
        _ => NodeStatus::Hidden,
    }
}

/// Who has claimed a node with this word.
pub fn claimer_from_word(word: u64) -> u8
    ensures { (o : ℕ) → o < 64 → status_word (Claimed o) ≡ word → result ≡ o }
{
    ((word / 4).saturating_sub(1) % 256) as u8
}

/// The word of a key.
pub fn lock_to_word(word: LockWord) -> u64
    ensures word { result ≡ lock_word word }
    ensures small { (n : ℕ) → word ≡ Readers n → n < 65536 }
{
    match word {
        LockWord::Readers(readers) => u64::from(readers),
        LockWord::Written => WRITTEN,
    }
}

/// Who holds a key with this word.
pub fn lock_from_word(word: u64) -> LockWord
    requires { word ≤ 65536 }
    ensures { result ≡ lock_read word }
{
    if word == WRITTEN {
        LockWord::Written
    } else {
        LockWord::Readers(word as u16)
    }
}

/// The word of a key after it is taken in this mode, by the word that was seen.
pub fn taken_word(mode: LockMode, seen: LockWord) -> u64
    ensures { result ≡ lock_word (taken mode seen) }
{
    match (mode, seen) {
        (LockMode::Read, LockWord::Readers(readers)) => u64::from(readers) + 1,
        (LockMode::Read, LockWord::Written) | (LockMode::ReadWrite, _) => WRITTEN,
    }
}

/// The result of a node by the word of its counter.
pub fn result_from_word(word: u64) -> Status
    ensures { result ≡ result_in word }
{
    match word / WRITTEN {
        0 => Status::Successful,
        1 => Status::Aborted,
        _ => Status::Failed,
    }
}

/// What is outstanding at a node by the word of its counter.
pub fn outstanding_from_word(word: u64) -> usize
    ensures { result ≡ outstanding_in word }
{
    (word % WRITTEN) as usize
}
