//! Reads a line of the JSON of a run.

ghost use Rattle.std.specs.Prelude.{◌≡◌, IfOk};
ghost use Rattle.json.specs.Value.{value_view};
ghost use Rattle.saved_runs.specs.JsonLines.{text_at, is_note, event_told, object_told, json_line};

use crate::told::{Told, node_told, plan_told};
use json::{Error, Scratch, Value};
use std::alloc::{AllocError, Global};

/// The text of the member of this name; nothing where there is none.
fn text_at<'v>(object: &Value<'v>, name: &str) -> &'v str
    ensures { result.now ≡ text_at name.now (value_view object.now) }
{
    match object.get(name) {
        Some(member) => member.as_str().unwrap_or(""),
        None => "",
    }
}

/// Whether an event of this name is a warning or a schedule.
fn is_note(event: &str) -> bool
    ensures { result ≡ is_note event.now }
{
    match event {
        "warning" | "schedule" => true,
        _ => false,
    }
}

/// What is told of the plan, or of a node, by the name of what happened.
fn event_told(alloc: Global, word: &str, object: &Value) -> Result<Option<Told>, AllocError>
    ensures { IfOk result (λ told. told ≡ event_told word.now (value_view object.now)) }
{
    if text_at(object, "type") == "PLAN" {
        return Ok(plan_told(word));
    }
    node_told(
        alloc,
        word,
        text_at(object, "id"),
        text_at(object, "status"),
    )
}

/// What an object tells.
fn object_told(alloc: Global, object: &Value) -> Result<Option<Told>, AllocError>
    ensures { IfOk result (λ told. told ≡ object_told (value_view object.now)) }
{
    let word = text_at(object, "event");
    if is_note(word) {
        return Ok(Some(Told::Note));
    }
    event_told(alloc, word, object)
}

/// What a line of the JSON of a run tells, if it is one.
pub(crate) fn json_line(alloc: Global, line: &str) -> Result<Option<Told>, AllocError>
    ensures { IfOk result (λ told. told ≡ json_line line.now) }
{
    let mut scratch = Scratch::new(alloc);
    match Value::parse(alloc, line, &mut scratch) {
        Ok(object) => object_told(alloc, &object),
        Err(Error::Invalid) => Ok(None),
        Err(_) => Err(AllocError),
    }
}
