//! What a line of a host says of a test.

ghost use Rattle.std.specs.Prelude.{◌≡◌, ◌⊎◌, ◌≤◌, [], IfOk, IfErr, IfSome, Some, None, length, option_map};
ghost use Rattle.std.specs.Str.{IsUtf8};
ghost use Rattle.json.specs.Value.{value_view};
ghost use Rattle.host_bodies.specs.Answers.{ended, ending_at, ending_in, ending_of, status_named, text_at, unanswered, IsToldOf, Tells};
ghost use Rattle.plan_events.specs.declared.outcome.Outcome.{Outcome as OutcomeValue};
ghost use Rattle.host_bodies.specs.Replies.{IsSayable};
ghost use Rattle.host_bodies.specs.declared.silence.Silence.TheVariants.{NoAnswer, NoMemory};

use crate::silence::Silence;
use json::{Error, Scratch, Value};
use plan_events::{Outcome, Status};
use std::alloc::Global;
use unique_id::Text;

/// The greatest length of what a host says of a test, in bytes.
pub const LONGEST_TEXT: usize = 65_536;

/// The status of this name.
fn status_named(word: &str) -> Option<Status>
    ensures { result ≡ status_named word.now }
{
    match word {
        "SUCCESSFUL" => Some(Status::Successful),
        "ABORTED" => Some(Status::Aborted),
        "FAILED" => Some(Status::Failed),
        _ => None,
    }
}

/// The text of the member of this name; nothing where there is none.
fn text_at<'v>(object: &Value<'v>, name: &str) -> &'v str
    ensures { result.now ≡ text_at name.now (value_view object.now) }
{
    match object.get(name) {
        Some(member) => member.as_str().unwrap_or(""),
        None => "",
    }
}

/// A text of the same bytes. Where there is no memory for it, it is empty.
pub(crate) fn text_of(alloc: Global, said: &str) -> Text
    ensures { (result ≡ said.now) ⊎ (result ≡ []) }
{
    match Text::new(alloc, said) {
        Ok(text) => text,
        Err(_) => Text::empty(),
    }
}

/// How an object says that a test ended, and with which text.
fn ending_at<'v>(object: &Value<'v>) -> Option<(Status, &'v str)>
    ensures is { option_map (λ e. ended e.1.now e.0) result ≡ ending_at (value_view object.now) }
    ensures short { IfSome result (λ e. length e.1.now ≤ 65536) }
{
    let text = text_at(object, "text");
    if text.len() > LONGEST_TEXT {
        return None;
    }
    match status_named(text_at(object, "status")) {
        Some(status) => Some((status, text)),
        None => None,
    }
}

/// How it says that this, of the node of this id, ended: it names both.
fn ending_in<'v>(object: &Value<'v>, what: &str, id: &str) -> Option<(Status, &'v str)>
    ensures is { option_map (λ e. ended e.1.now e.0) result ≡ ending_in what.now id.now (value_view object.now) }
    ensures short { IfSome result (λ e. length e.1.now ≤ 65536) }
{
    if text_at(object, "event") == what && text_at(object, "id") == id {
        ending_at(object)
    } else {
        None
    }
}

/// What is told of a test that ended so.
fn told_of(alloc: Global, status: Status, text: &str) -> Outcome
    requires { length text.now ≤ 65536 }
    ensures told { IsToldOf (ended text.now status) result }
    ensures sayable { IsSayable result }
{
    Outcome {
        status,
        text: text_of(alloc, text),
    }
}

/// What is told of this, of the node of this id, by this object, if it says how that ended.
fn told_in(alloc: Global, object: &Value, what: &str, id: &str) -> Option<Outcome>
    ensures told { IfSome result (λ told. (ending : OutcomeValue)
        × (ending_in what.now id.now (value_view object.now) ≡ Some ending) × IsToldOf ending told) }
    ensures sayable { IfSome result IsSayable }
    ensures none { result ≡ None → ending_in what.now id.now (value_view object.now) ≡ None }
{
    match ending_in(object, what, id) {
        Some((status, text)) => Some(told_of(alloc, status, text)),
        None => None,
    }
}

/// What is told of this, of the node of this id, by this line.
pub(crate) fn read_answer(
    alloc: Global,
    line: &str,
    what: &str,
    id: &str,
    scratch: &mut Scratch,
) -> Result<Outcome, Silence>
    ensures ok { IfOk result (λ told. Tells what.now id.now line.now told) }
    ensures sayable { IfOk result IsSayable }
    ensures why { IfErr result (λ why. ((why ≡ NoAnswer) × (ending_of what.now id.now line.now ≡ None)) ⊎ (why ≡ NoMemory)) }
{
    match Value::parse(alloc, line, scratch) {
        Ok(object) => match told_in(alloc, &object, what, id) {
            Some(told) => Ok(told),
            None => Err(Silence::NoAnswer),
        },
        Err(Error::Invalid) => Err(Silence::NoAnswer),
        Err(_) => Err(Silence::NoMemory),
    }
}

/// What is told of a test to which there is no answer.
pub(crate) fn silent_outcome(alloc: Global, why: Silence) -> Outcome
    ensures told { IsToldOf (unanswered why) result }
    ensures sayable { IsSayable result }
{
    told_of(alloc, Status::Failed, why.text())
}
