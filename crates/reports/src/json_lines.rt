//! The JSON of a run: an object for each event.

ghost use Rattle.std.specs.Prelude.{◌≡◌, ◌<◌, ◌^◌, ◌∷◌, ◌++◌, [], OnOk, IfOk, IfSome, codes, map, string_bytes};
ghost use Rattle.job_times.specs.Timings.{took_of};
ghost use Rattle.run_results.specs.Feed.{kind_word, text_or};
ghost use Rattle.plan_events.specs.Texts.{text_at};
ghost use Rattle.reports.specs.Json.{type_word, time_members, status_members, timed_ending_members, node_members};
ghost use Rattle.reports.specs.Json.{note_line, note_json, timed_event_object, timed_object_told, object_told, ReadsAs};
ghost use Rattle.reports.specs.Json.{timed_json_of, json_of};
ghost use Rattle.reports.specs.JsonPieces.{members_behind};

use crate::json_strings::{push_further, push_member, push_number};
use crate::nodes::{id_of, kind_of, name_of, text_of};
use descriptor::{Kind, NodeId};
use job_times::Timings;
use plan_events::{Event, EventKind, Status, Texts};
use resource_locks::Plan;
use std::alloc::{AllocError, Global};

fn event_word(kind: EventKind) -> &'static str
    ensures { result.now ≡ kind_word kind }
{
    match kind {
        EventKind::Started => "started",
        EventKind::Finished => "finished",
        EventKind::Skipped => "skipped",
        EventKind::Registered => "registered",
    }
}

pub(crate) fn type_word(kind: Kind) -> &'static str
    ensures { result.now ≡ type_word kind }
{
    match kind {
        Kind::Container => "CONTAINER",
        Kind::Test => "TEST",
        Kind::ContainerAndTest => "CONTAINER_AND_TEST",
    }
}

/// How many microseconds a millisecond has.
const MILLISECOND: u64 = 1000;

/// Appends how long a node took, if it is known.
fn push_time(json: &mut String, took: Option<u64>) -> Result<(), AllocError>
    ensures { OnOk result (string_bytes json.new ≡ string_bytes json.old ++ members_behind (time_members took)) }
{
    match took {
        None => Ok(()),
        Some(micros) => push_number(json, "ms", micros / MILLISECOND),
    }
}

/// Appends how a node ended.
fn push_status(
    json: &mut String,
    status: Status,
    text: &str,
    took: Option<u64>,
) -> Result<(), AllocError>
    ensures { OnOk result (string_bytes json.new ≡ string_bytes json.old
        ++ members_behind (status_members status text.now took)) }
{
    match status {
        Status::Successful => {
            push_further(json, "status", "SUCCESSFUL")?;
            push_time(json, took)
        }
        Status::Aborted => {
            push_further(json, "status", "ABORTED")?;
            push_further(json, "text", text)?;
            push_time(json, took)
        }
        Status::Failed => {
            push_further(json, "status", "FAILED")?;
            push_further(json, "text", text)?;
            push_time(json, took)
        }
    }
}

/// Appends what stands behind the name.
fn push_ending(
    json: &mut String,
    event: Event,
    text: &str,
    took: Option<u64>,
) -> Result<(), AllocError>
    ensures { OnOk result (string_bytes json.new ≡ string_bytes json.old
        ++ members_behind (timed_ending_members event.kind event.status text.now took)) }
{
    match (event.kind, event.status) {
        (EventKind::Skipped, _) => push_further(json, "text", text),
        (EventKind::Finished, Some(status)) => push_status(json, status, text, took),
        _ => Ok(()),
    }
}

/// Appends of which node an event tells, and what stands behind its name.
fn push_node(
    json: &mut String,
    plan: &Plan,
    texts: &Texts,
    event: Event,
    took: Option<u64>,
) -> Result<(), AllocError>
    ensures { OnOk result (string_bytes json.new ≡ string_bytes json.old
        ++ members_behind (node_members plan.now event (text_or (text_at texts.now event.node)) took)) }
{
    let node = event.node;
    if node == NodeId::ROOT {
        return push_further(json, "type", "PLAN");
    }
    push_further(json, "type", type_word(kind_of(plan.tree(), node)))?;
    push_further(json, "id", id_of(plan, node))?;
    push_further(json, "name", name_of(plan.tree(), node))?;
    push_ending(json, event, text_of(texts, node), took)
}

/// The time of a node, if it is known.
fn took_by(timings: &Timings, node: NodeId) -> Option<u64>
    ensures same { result ≡ took_of timings.now.took.items node }
    ensures small { IfSome result (λ micros. micros < 2 ^ 64) }
{
    match timings.of_node(node) {
        None => None,
        Some(micros) => Some(micros),
    }
}

/// Appends the line of an event; of a finish it says how long the node took, if that is known.
pub fn push_event(
    json: &mut String,
    plan: &Plan,
    texts: &Texts,
    timings: &Timings,
    event: Event,
) -> Result<(), AllocError>
    ensures byte { event.worker < 256 }
    ensures small { IfSome (took_of timings.now.took.items event.node) (λ micros. micros < 2 ^ 64) }
    ensures text { OnOk result (string_bytes json.new ≡ string_bytes json.old
        ++ (timed_event_object plan.now texts.now timings.now.took.items event ++ codes "\n")) }
{
    let took = took_by(timings, event.node);
    json.push_str("{")?;
    push_member(json, "event", event_word(event.kind))?;
    push_number(json, "worker", u64::from(event.worker))?;
    push_node(json, plan, texts, event, took)?;
    json.push_str("}\n")
}

/// Appends a line that tells of no node: what it is, and one member besides.
pub fn push_note(json: &mut String, what: &str, name: &str, text: &str) -> Result<(), AllocError>
    ensures text { OnOk result (string_bytes json.new ≡ string_bytes json.old
        ++ note_line what.now name.now text.now) }
    // The line, read as JSON, is the object with these two members.
    ensures reads_back { OnOk result (ReadsAs (note_line what.now name.now text.now)
        (note_json what.now name.now text.now ∷ [])) }
{
    json.push_str("{")?;
    push_member(json, "event", what)?;
    push_further(json, name, text)?;
    json.push_str("}\n")
}

/// The JSON of these events: an object for each, in their order, each on a line of its own; of a finish
/// it says how long the node took, if that is known. Of a node that the plan lacks, id and name are
/// empty.
pub fn timed_json_text(
    alloc: Global,
    plan: &Plan,
    events: &[Event],
    texts: &Texts,
    timings: &Timings,
) -> Result<String, AllocError>
    ensures text { IfOk result (λ json. string_bytes json ≡ timed_json_of plan.now texts.now timings.now.took.items
        events.now) }
    // Each line, read as JSON, is the object of its event.
    ensures reads_back { IfOk result (λ json. ReadsAs (string_bytes json)
        (map (timed_object_told plan.now texts.now timings.now.took.items) events.now)) }
{
    let mut json = String::new(alloc);
    for event in events {
        push_event(&mut json, plan, texts, timings, *event)?;
    }
    Ok(json)
}

/// The JSON of these events where no time is known: no finish says how long its node took.
pub fn json_text(
    alloc: Global,
    plan: &Plan,
    events: &[Event],
    texts: &Texts,
) -> Result<String, AllocError>
    ensures text { IfOk result (λ json. string_bytes json ≡ json_of plan.now texts.now events.now) }
    // Each line, read as JSON, is the object of its event.
    ensures reads_back { IfOk result (λ json. ReadsAs (string_bytes json)
        (map (object_told plan.now texts.now) events.now)) }
{
    timed_json_text(alloc, plan, events, texts, &Timings::none(alloc))
}
