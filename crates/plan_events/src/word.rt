//! The word of an event: bits 0 to 7 the kind, 8 to 15 the status, 16 to 23 the worker, 32 to 47 the
//! node; the other bits are 0.

ghost use Rattle.std.specs.Prelude.{◌≡◌, ◌<◌, IfSome, true};

use crate::event::{Event, EventKind};
use crate::status::Status;
use descriptor::NodeId;

/// The number of values of a byte.
const BYTE: u64 = 0x100;

/// What a status is multiplied by, to stand at its bits.
const STATUS_UNIT: u64 = 0x100;

/// What a worker's number is multiplied by.
const WORKER_UNIT: u64 = 0x1_0000;

/// What a node's number is multiplied by.
const NODE_UNIT: u64 = 0x1_0000_0000;

impl EventKind {
    ghost use Rattle.plan_events.specs.declared.event.EventKind.{EventKind};
    ghost use Rattle.plan_events.specs.Words.{kind_code};

    /// The kind's number in a word, from 1.
    fn code(self) -> u64
        ensures { result ≡ kind_code self }
    {
        match self {
            EventKind::Started => 1,
            EventKind::Finished => 2,
            EventKind::Skipped => 3,
            EventKind::Registered => 4,
        }
    }

    /// The kind with this number, if there is one.
    fn from_code(code: u64) -> Option<EventKind>
        ensures { (kind : EventKind) → kind_code kind ≡ code → result ≡ Some kind }
    {
        match code {
            1 => Some(EventKind::Started),
            2 => Some(EventKind::Finished),
            3 => Some(EventKind::Skipped),
            4 => Some(EventKind::Registered),
            _ => None,
        }
    }
}

impl Status {
    ghost use Rattle.std.specs.Prelude.{Option};
    ghost use Rattle.plan_events.specs.declared.status.Status.{Status};
    ghost use Rattle.plan_events.specs.Words.{status_code};

    /// The status's number in a word, 0 for none.
    fn code(status: Option<Status>) -> u64
        ensures { result ≡ status_code status }
    {
        match status {
            None => 0,
            Some(Status::Successful) => 1,
            Some(Status::Aborted) => 2,
            Some(Status::Failed) => 3,
        }
    }

    /// The status with this number; the outer `None` where no status has it.
    fn from_code(code: u64) -> Option<Option<Status>>
        ensures { (status : Option Status) → status_code status ≡ code → result ≡ Some status }
    {
        match code {
            0 => Some(None),
            1 => Some(Some(Status::Successful)),
            2 => Some(Some(Status::Aborted)),
            3 => Some(Some(Status::Failed)),
            _ => None,
        }
    }
}

impl Event {
    ghost use Rattle.plan_events.specs.declared.event.Event.{Event};
    ghost use Rattle.plan_events.specs.Words.{is_lawful, word_of};

    /// The word of a lawful event. The word 0 is no event's.
    pub fn to_word(self) -> u64
        requires { is_lawful self ≡ true }
        ensures word { result ≡ word_of self }
        ensures above_zero { 0 < result }
    {
        self.kind.code()
            + STATUS_UNIT * Status::code(self.status)
            + WORKER_UNIT * u64::from(self.worker)
            + NODE_UNIT * u64::from(self.node.number())
    }

    /// The lawful event that has this word, if there is one.
    pub fn from_word(word: u64) -> Option<Event>
        ensures gives { IfSome result (λ e. (is_lawful e ≡ true) × (word_of e ≡ word)) }
        ensures reads { (e : Event) → is_lawful e ≡ true → word_of e ≡ word → result ≡ Some e }
    {
        let event = Event {
            kind: EventKind::from_code(word % BYTE)?,
            status: Status::from_code(word / STATUS_UNIT % BYTE)?,
            worker: u8::try_from(word / WORKER_UNIT % BYTE).ok()?,
            node: NodeId::new(u16::try_from(word / NODE_UNIT).ok()?),
        };
        (event.is_lawful() && event.to_word() == word).then_some(event)
    }
}
