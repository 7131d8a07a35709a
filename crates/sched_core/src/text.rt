//! The texts of a history.

ghost use Rattle.std.specs.Prelude.{◌≡◌, ◌<◌, ◌++◌, ◌∷◌, [], ℕ, List, length, option_map, IfOk, OnOk};
ghost use Rattle.std.specs.Option.{option_or};
ghost use Rattle.descriptor.specs.Nodes.{size};
ghost use Rattle.plan_events.specs.declared.event.Event.{Event};
ghost use Rattle.plan_events.specs.declared.note.Note.TheVariants.{Own};
ghost use Rattle.plan_events.specs.Texts.{text_at};
ghost use Rattle.event_history.specs.History.{IsLegal, IsTextOf};
ghost use Rattle.event_history.specs.Results.{Around};
ghost use Rattle.scheduling.specs.Jobs.{as_jobs};
ghost use Rattle.sched_core.specs.Replies.{reply_of, replies_of};
ghost use Rattle.sched_core.specs.Texts.{jobs_note as jobs_note_of, note_of, AreTexts};

use crate::answers::Answers;
use descriptor::BodyId;
use plan_events::{Event, EventKind, Note, Texts};
use resource_locks::Plan;
use scheduling::{NodeJobs, jobs_of, skip_note};
use std::alloc::{AllocError, Global};
use unique_id::Text;

/// What a job said: nothing for one without a reply.
fn said(alloc: Global, answers: &Answers, job: BodyId) -> Result<Note, AllocError>
    ensures { IfOk result (λ note. note ≡ Own (reply_of answers.now job).outcome.text) }
{
    let text = match answers.reply(job) {
        Some(reply) => reply.outcome.text.as_str(),
        None => "",
    };
    Ok(Note::Own(Text::new(alloc, text)?))
}

/// How many dynamic tests a factory's job asks for: none without a reply.
fn pulls(answers: &Answers, job: BodyId) -> usize
    ensures { result ≡ (reply_of answers.now job).pulls }
{
    match answers.reply(job) {
        Some(reply) => usize::from(reply.pulls),
        None => 0,
    }
}

/// The job that answers last of a container: its body, where that stops it before its children,
/// else the after-body that is run, else its body.
fn last_job(answers: &Answers, body: Option<BodyId>, after: Option<BodyId>) -> Option<BodyId>
    ensures { jobs_note_of (reply_of answers.now) (Around body after) ≡ option_map
        (λ job. Own (reply_of answers.now job).outcome.text) result }
{
    match (body, after) {
        (Some(body), Some(after)) => {
            if answers.answer(Some(body)).status.is_successful() {
                Some(after)
            } else {
                Some(body)
            }
        }
        (Some(body), None) => Some(body),
        (None, after) => after,
    }
}

/// What is noted of a finished node for which these jobs are run.
fn jobs_note(alloc: Global, answers: &Answers, jobs: NodeJobs) -> Result<Option<Note>, AllocError>
    ensures { IfOk result (λ note. note ≡ jobs_note_of (reply_of answers.now) (as_jobs jobs)) }
{
    let job = match jobs {
        NodeJobs::Nothing => None,
        NodeJobs::Alone(body) => Some(body),
        NodeJobs::Pulled(body, spares) => {
            if spares < pulls(answers, body) {
                return Ok(Some(Note::TooMany));
            }
            Some(body)
        }
        NodeJobs::Around(body, after) => last_job(answers, body, after),
    };
    match job {
        Some(job) => Ok(Some(said(alloc, answers, job)?)),
        None => Ok(None),
    }
}

/// What one more event gives its node for a note. A skip counts more than a finish, which therefore
/// gives none where a note stands.
fn told(
    alloc: Global,
    plan: &Plan,
    answers: &Answers,
    event: &Event,
    texts: &Texts,
) -> Result<Option<Note>, AllocError>
    requires { event.now.node < size plan.now.tree }
    ensures { IfOk result (λ told. (h : List Event) → AreTexts plan.now answers.now h texts.now →
        note_of plan.now answers.now (h ++ event.now ∷ []) event.now.node ≡ option_or told
        (note_of plan.now answers.now h event.now.node)) }
{
    match event.kind {
        EventKind::Started | EventKind::Registered => Ok(None),
        EventKind::Skipped => Ok(Some(skip_note(plan, event.node))),
        EventKind::Finished => {
            if texts.of(event.node).is_some() {
                return Ok(None);
            }
            jobs_note(alloc, answers, jobs_of(plan, event.node))
        }
    }
}

/// Notes what one more event tells.
fn note(
    alloc: Global,
    plan: &Plan,
    answers: &Answers,
    event: &Event,
    texts: &mut Texts,
) -> Result<(), AllocError>
    requires { length texts.old.notes ≡ size plan.now.tree }
    ensures { OnOk result ((h : List Event) → AreTexts plan.now answers.now h texts.old →
        AreTexts plan.now answers.now (h ++ event.now ∷ []) texts.new) }
{
    if event.node.index() >= plan.tree().len() {
        return Ok(());
    }
    if let Some(note) = told(alloc, plan, answers, event, texts)? {
        texts.set(event.node, note);
    }
    Ok(())
}

/// The texts of these events: of each skipped node its reason, or that the plan was cancelled, and
/// of each other node whose finish is among them the text of its result, if that has one. In a
/// legal history this is the text of the reply by which the node ended.
pub fn texts_of(
    alloc: Global,
    plan: &Plan,
    answers: &Answers,
    events: &[Event],
) -> Result<Texts, AllocError>
    ensures texts { IfOk result (λ texts. AreTexts plan.now answers.now events.now texts) }
    ensures deciding { IfOk result (λ texts. (workers : ℕ) → IsLegal plan.now (replies_of answers.now) workers
        events.now → (n : ℕ) → n < size plan.now.tree → IsTextOf plan.now (replies_of answers.now) events.now n
        (text_at texts n)) }
{
    let mut texts = Texts::new(alloc, plan.tree())?;
    for event in events {
        note(alloc, plan, answers, event, &mut texts)?;
    }
    Ok(texts)
}
