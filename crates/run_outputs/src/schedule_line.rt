//! The line that a run ends with where its schedule is asked for.

ghost use Rattle.std.specs.Prelude.{◌≡◌, ◌++◌, IfOk, IfSome, OnOk, option_map, string_bytes};
ghost use Rattle.schedules.specs.Schedules.{IsSchedule};
ghost use Rattle.step_text.specs.StepSpelling.{AreNamable};
ghost use Rattle.run_outputs.specs.ScheduleLines.{HasTextsBy, IsBehindJobs, IsBehindRun};
ghost use Rattle.run_outputs.specs.ScheduleLines.{IsBehindDetails};
ghost use Rattle.run_outputs.specs.ScheduleTexts.{line_by, schedule_line as line_of, schedule_member as member_of};
ghost use Rattle.run_outputs.specs.ScheduleTexts.{schedule_text as text_of};

use crate::told_replies::{are_texts, told_answers};
use launch_options::Details;
use plan_events::{Event, Texts};
use reports::push_note;
use resource_locks::Plan;
use sched_core::Answers;
use schedules::schedule_of;
use scheduling::Step;
use std::alloc::{AllocError, Global};
use step_text::{are_namable, push_steps};

/// A schedule of this history whose steps a text can name, if one was found.
fn namable_schedule(
    alloc: Global,
    plan: &Plan,
    answers: &Answers,
    workers: u32,
    history: &[Event],
) -> Result<Option<Vec<Step>>, AllocError>
    ensures schedule { IfOk result (λ found. IfSome (option_map (λ steps. steps.items) found)
        (IsSchedule plan.now answers.now workers history.now)) }
    ensures namable { IfOk result (λ found. IfSome (option_map (λ steps. steps.items) found) AreNamable) }
{
    let Some(steps) = schedule_of(alloc, plan, answers, workers, history)? else {
        return Ok(None);
    };
    if are_namable(steps.as_slice()) {
        Ok(Some(steps))
    } else {
        Ok(None)
    }
}

/// A schedule of this history whose steps a text can name, if one was found and the texts too are those of jobs that
/// answer so.
fn explaining_schedule(
    alloc: Global,
    plan: &Plan,
    told: &Answers,
    workers: u32,
    history: &[Event],
    texts: &Texts,
) -> Result<Option<Vec<Step>>, AllocError>
    ensures schedule { IfOk result (λ found. IfSome (option_map (λ steps. steps.items) found)
        (IsSchedule plan.now told.now workers history.now)) }
    ensures namable { IfOk result (λ found. IfSome (option_map (λ steps. steps.items) found) AreNamable) }
    ensures texts { IfOk result (λ found. IfSome (option_map (λ steps. steps.items) found)
        (λ _. HasTextsBy plan.now told.now history.now texts.now)) }
{
    let Some(steps) = namable_schedule(alloc, plan, told, workers, history)? else {
        return Ok(None);
    };
    if are_texts(alloc, plan, told, history, texts)? {
        Ok(Some(steps))
    } else {
        Ok(None)
    }
}

/// The text of these steps, or that none were found.
fn schedule_text(alloc: Global, found: &Option<Vec<Step>>) -> Result<String, AllocError>
    ensures { IfOk result (λ text. string_bytes text ≡ text_of (option_map (λ steps. steps.items) found.now)) }
{
    let mut text = String::new(alloc);
    match found {
        Some(steps) => push_steps(&mut text, steps.as_slice())?,
        None => text.push_str("no schedule was found")?,
    }
    Ok(text)
}

/// The member of an object of JSON that has that text.
fn schedule_member(found: &Option<Vec<Step>>) -> &'static str
    ensures { result.now ≡ member_of (option_map (λ steps. steps.items) found.now) }
{
    match found {
        Some(_) => "steps",
        None => "text",
    }
}

/// Appends this text as a line, in the form of the details, of which JSON's is an object with this member.
fn push_line(
    line: &mut String,
    details: Details,
    member: &str,
    text: &str,
) -> Result<(), AllocError>
    ensures { OnOk result (string_bytes line.new ≡ string_bytes line.old ++ line_by details member.now text.now) }
{
    match details {
        Details::Json | Details::Plan => push_note(line, "schedule", member, text),
        Details::Xml => writeln!(line, "<!-- {text} -->"),
        Details::None | Details::Summary | Details::Tree | Details::Testfeed | Details::List =>
            writeln!(line, "{text}"),
    }
}

/// The line of these steps, or that none were found.
fn schedule_line(
    alloc: Global,
    details: Details,
    found: Option<Vec<Step>>,
) -> Result<String, AllocError>
    ensures { IfOk result (λ line. string_bytes line ≡ line_of details (option_map (λ steps. steps.items) found)) }
{
    let text = schedule_text(alloc, &found)?;
    let mut line = String::new(alloc);
    push_line(&mut line, details, schedule_member(&found), text.as_str())?;
    Ok(line)
}

/// What is printed behind the details of a run of jobs of which it is known what they answer: nothing, unless a schedule
/// is asked for.
fn behind_details(
    alloc: Global,
    details: Details,
    asked: bool,
    plan: &Plan,
    answers: &Answers,
    workers: u32,
    history: &[Event],
) -> Result<String, AllocError>
    ensures { IfOk result (λ text. IsBehindDetails details asked workers plan.now answers.now history.now
        (string_bytes text)) }
{
    if !asked {
        return Ok(String::new(alloc));
    }
    let found = namable_schedule(alloc, plan, answers, workers, history)?;
    schedule_line(alloc, details, found)
}

/// What is printed behind the details of a run of jobs of which nobody knew beforehand what they answer: nothing,
/// unless a schedule is asked for. What they answered is read off the history and its texts.
fn behind_jobs(
    alloc: Global,
    details: Details,
    asked: bool,
    plan: &Plan,
    workers: u32,
    history: &[Event],
    texts: &Texts,
) -> Result<String, AllocError>
    ensures { IfOk result (λ text. IsBehindJobs details asked workers plan.now history.now texts.now
        (string_bytes text)) }
{
    if !asked {
        return Ok(String::new(alloc));
    }
    let told = told_answers(alloc, plan, history, texts)?;
    let found = explaining_schedule(alloc, plan, &told, workers, history, texts)?;
    schedule_line(alloc, details, found)
}

/// What is printed behind the details of a run, of whose jobs it is known what they answer, or is not.
pub(crate) fn behind_run(
    alloc: Global,
    details: Details,
    asked: bool,
    plan: &Plan,
    known: Option<&Answers>,
    workers: u32,
    history: &[Event],
    texts: &Texts,
) -> Result<String, AllocError>
    ensures { IfOk result (λ text. IsBehindRun details asked workers plan.now (option_map (λ a. a.now) known.entry)
        history.now texts.now (string_bytes text)) }
{
    match known {
        Some(answers) => behind_details(alloc, details, asked, plan, answers, workers, history),
        None => behind_jobs(alloc, details, asked, plan, workers, history, texts),
    }
}
