//! A channel to a host.

ghost use Rattle.std.specs.Prelude.{◌≡◌, ◌+◌, ◌≤◌, ◌⊎◌, ◌∷◌, ◌++◌, ◌↔◌, [], true, IfOk, IfErr, None, length, take};
ghost use Rattle.std.specs.Str.{IsUtf8};
ghost use Rattle.std.specs.Io.KnownBytes.{Appends};
ghost use Rattle.host_bodies.specs.Answers.{Tells};
ghost use Rattle.host_bodies.specs.Channels.{link_of, IsAnswered, IsAsked, IsFailed, IsNoAnswer, IsUnread, IsUnsent};
ghost use Rattle.host_bodies.specs.Lines.{IsCutOff, IsLine};
ghost use Rattle.host_bodies.specs.Replies.{IsSayable};

use crate::answer::read_answer;
use crate::heard::Answer;
use crate::line::read_line;
use crate::silence::Silence;
use json::Scratch;
use run_results::print_to;
use std::alloc::{AllocError, Global};
use std::io::{Read, Write};
use unique_id::Text;

/// The greatest length of a line of a host, and the line feed behind it, in bytes.
const ROOM: usize = 65_536;

/// A channel to a host: requests go out, and lines come in. Once there was no answer it is closed, and nothing more goes
/// out or comes in.
#[derive(Drop)]
pub struct Channel<R, W> {
    alloc: Global,
    reader: R,
    writer: W,
    // room for a line
    room: Vec<u8>,
    // what reading an answer takes
    scratch: Scratch,
    closed: Option<Silence>,
}

/// Reads a line into the room, as `read_line` does.
fn read_into<R: Read>(reader: &mut R, room: &mut Vec<u8>) -> Result<usize, Silence>
    ensures same { length room.new.items ≡ length room.old.items }
    ensures line { IfOk result (λ len. IsLine len room.new.items (R.remaining reader.old) (R.remaining reader.new)) }
    ensures cut_off { IfErr result (λ why. IsCutOff why (length room.old.items) (R.remaining reader.old)
        (R.remaining reader.new)) }
{
    read_line(reader, room.as_mut_slice())
}

/// The answer that these bytes are, for this, of the node of this id.
fn answer_in(
    alloc: Global,
    bytes: &[u8],
    what: &str,
    id: &str,
    scratch: &mut Scratch,
) -> Result<Answer, Silence>
    ensures line { IfOk result (λ answer. answer.line ≡ bytes.now) }
    ensures tells { IfOk result (λ answer. Tells what.now id.now bytes.now answer.outcome) }
    ensures sayable { IfOk result (λ answer. IsSayable answer.outcome) }
    ensures why { IfErr result (λ why. IsNoAnswer what.now id.now bytes.now why) }
{
    let Ok(line) = std::str::from_utf8(bytes) else {
        return Err(Silence::NoAnswer);
    };
    let Ok(kept) = Text::new(alloc, line) else {
        return Err(Silence::NoMemory);
    };
    match read_answer(alloc, line, what, id, scratch) {
        Ok(outcome) => Ok(Answer {
            line: kept,
            outcome,
        }),
        Err(why) => Err(why),
    }
}

impl<R: Read, W: Write> Channel<R, W> {
    /// A channel that is open, whose host reads what goes to this writer, and writes what comes from this reader. For want of
    /// memory there is none.
    pub fn new(alloc: Global, reader: R, writer: W) -> Result<Channel<R, W>, AllocError>
    where
        R: Drop,
        W: Drop,
        ensures { IfOk result (λ channel. link_of W.contents R.remaining channel ≡ record {
          told = W.contents writer;
          left = R.remaining reader;
          closed = None;
        }) }
    {
        let room = vec![in alloc; 0; ROOM]?;
        Ok(Channel {
            alloc,
            reader,
            writer,
            room,
            scratch: Scratch::new(alloc),
            closed: None,
        })
    }

    /// Whether it is open: each request so far was answered.
    pub fn is_open(&self) -> bool
        ensures { result ≡ true ↔ (link_of W.contents R.remaining self.now).closed ≡ None }
    {
        self.closed.is_none()
    }

    /// Writes a request, and reads a line into the room.
    fn exchange(&mut self, request: &[u8]) -> Result<usize, Silence>
        ensures written { IfOk result (λ len. Appends (W.contents self.old.writer) (W.contents self.new.writer) request.now) }
        ensures line { IfOk result (λ len. IsLine len self.new.room.items (R.remaining self.old.reader)
            (R.remaining self.new.reader)) }
        ensures why { IfErr result (λ why. IsUnsent request.now why (link_of W.contents R.remaining self.old)
            (link_of W.contents R.remaining self.new)
            ⊎ IsUnread request.now (length self.old.room.items) why (link_of W.contents R.remaining self.old)
            (link_of W.contents R.remaining self.new)) }
        ensures closed { self.new.closed ≡ self.old.closed }
        ensures room { length self.new.room.items ≡ length self.old.room.items }
    {
        match print_to(&mut self.writer, request) {
            Ok(()) => read_into(&mut self.reader, &mut self.room),
            Err(_) => Err(Silence::Unsent),
        }
    }

    /// Asks an open channel for this, of the node of this id, by this request.
    fn answer(&mut self, request: &str, what: &str, id: &str) -> Result<Answer, Silence>
        requires { self.old.closed ≡ None }
        ensures answered { IfOk result (λ answer. IsAnswered request.now what.now id.now answer
            (link_of W.contents R.remaining self.old) (link_of W.contents R.remaining self.new)) }
        ensures sayable { IfOk result (λ answer. IsSayable answer.outcome) }
        ensures failed { IfErr result (λ why. IsFailed request.now what.now id.now (length self.old.room.items) why
            (link_of W.contents R.remaining self.old) (link_of W.contents R.remaining self.new)) }
        ensures room { length self.new.room.items ≡ length self.old.room.items }
    {
        match self.exchange(request.as_bytes()) {
            Ok(len) => answer_in(self.alloc, &self.room[..len], what, id, &mut self.scratch),
            Err(why) => Err(why),
        }
    }

    /// Asks the host for this, of the node of this id, by this request: it goes out whole, and once, and a line comes in. Where there is
    /// no answer the channel is closed; a closed one is left alone.
    pub fn ask(&mut self, request: &str, what: &str, id: &str) -> Result<Answer, Silence>
        ensures asked { IsAsked request.now what.now id.now (length self.old.room.items)
            (link_of W.contents R.remaining self.old) (link_of W.contents R.remaining self.new) result }
        ensures sayable { IfOk result (λ answer. IsSayable answer.outcome) }
        ensures room { length self.new.room.items ≡ length self.old.room.items }
    {
        if let Some(why) = self.closed {
            return Err(why);
        }
        match self.answer(request, what, id) {
            Ok(answer) => Ok(answer),
            Err(why) => {
                self.closed = Some(why);
                Err(why)
            }
        }
    }
}
