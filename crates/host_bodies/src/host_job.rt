//! The job of a test that a host runs.

ghost use Rattle.std.specs.Prelude.{◌≡◌, [], codes, length, IfOk};
ghost use Rattle.reports.specs.Json.{note_line};
ghost use Rattle.plan_events.specs.Jobs.{GivesOutcome, IsRun};
ghost use Rattle.host_bodies.specs.Answers.{Tells};
ghost use Rattle.host_bodies.specs.Asking.{unasked_channel, HasLedTo};
ghost use Rattle.host_bodies.specs.Channels.{link_of};
ghost use Rattle.host_bodies.specs.HostJobs.{gives_told, is_asked, replies_left, says_heard, IsAskedFor, IsTold};
ghost use Rattle.host_bodies.specs.Replies.{replies_by, IsSayable};
ghost use Rattle.host_bodies.specs.declared.heard.Heard.TheVariants.{Nothing};

use crate::answer::silent_outcome;
use crate::channel::Channel;
use crate::heard::{Answer, Heard};
use crate::silence::Silence;
use descriptor::NodeId;
use plan_events::{Job, Outcome, Pull};
use reports::push_note;
use std::alloc::{AllocError, Global};
use std::io::{Read, Write};
use unique_id::Text;
use workers::Place;

/// A test's body, or an after-body, that a host runs. How it ends nobody knows beforehand.
#[derive(Drop)]
pub struct HostJob {
    alloc: Global,
    /// What the host is asked for, and of which node: it has to name both.
    pub what: Text,
    pub id: Text,
    /// The line that asks for it.
    pub request: Text,
    /// What was heard of it.
    pub heard: Heard,
}

/// The line that asks a host for this, of the node of this id.
fn request_for(alloc: Global, what: &str, id: &str) -> Result<Text, AllocError>
    ensures { IfOk result (λ request. request ≡ note_line what.now (codes "id") id.now) }
{
    let mut line = String::new(alloc);
    push_note(&mut line, what, "id", id)?;
    Text::new(alloc, line.as_str())
}

impl HostJob {
    /// The job that asks a host for this, of the node of this id.
    pub fn new(alloc: Global, what: &str, id: &str) -> Result<HostJob, AllocError>
        ensures what { IfOk result (λ job. job.what ≡ what.now) }
        ensures id { IfOk result (λ job. job.id ≡ id.now) }
        ensures request { IfOk result (λ job. job.request ≡ note_line what.now (codes "id") id.now) }
        ensures fresh { IfOk result (λ job. job.heard ≡ Nothing) }
    {
        Ok(HostJob {
            alloc,
            what: Text::new(alloc, what)?,
            id: Text::new(alloc, id)?,
            request: request_for(alloc, what, id)?,
            heard: Heard::Nothing,
        })
    }

    /// Keeps the line that answered, and tells what it says.
    fn keep_line(&mut self, answer: Answer) -> Outcome
        requires tells { Tells self.old.what self.old.id answer.line answer.outcome }
        requires sayable { IsSayable answer.outcome }
        ensures outcome { IsRun (replies_by (is_asked self.old.heard)) result }
        ensures told { IsTold self.new.what self.new.id self.new.heard result }
        ensures over { replies_by (is_asked self.new.heard) ≡ [] }
        ensures what { self.new.what ≡ self.old.what }
        ensures id { self.new.id ≡ self.old.id }
        ensures request { self.new.request ≡ self.old.request }
        ensures heard { self.new.heard ≡ Heard.Line answer.line }
        ensures same { result ≡ answer.outcome }
    {
        let Answer { line, outcome } = answer;
        self.heard = Heard::Line(line);
        outcome
    }

    /// Keeps why there was no answer, and tells that.
    fn keep_silence(&mut self, why: Silence) -> Outcome
        ensures outcome { IsRun (replies_by (is_asked self.old.heard)) result }
        ensures told { IsTold self.new.what self.new.id self.new.heard result }
        ensures over { replies_by (is_asked self.new.heard) ≡ [] }
        ensures what { self.new.what ≡ self.old.what }
        ensures id { self.new.id ≡ self.old.id }
        ensures request { self.new.request ≡ self.old.request }
        ensures heard { self.new.heard ≡ Heard.Silent why }
    {
        self.heard = Heard::Silent(why);
        silent_outcome(self.alloc, why)
    }
}

impl Job for HostJob {
    ghost answers = { replies_left };

    ghost gives = { gives_told };

    ghost says = { says_heard };

    fn next(&mut self) -> Pull {
        Pull::End
    }

    fn run(&mut self) -> Outcome {
        self.keep_silence(Silence::NoHost)
    }
}

impl<R: Read, W: Write> Channel<R, W> {
    /// Asks the host for this job, which keeps what was heard, and tells how it ended.
    pub fn serve(&mut self, job: &mut HostJob) -> Outcome
        ensures outcome { IsRun (replies_left job.old) result }
        ensures given { GivesOutcome (gives_told job.old) result }
        ensures said { says_heard job.new result }
        ensures over { replies_left job.new ≡ [] }
        ensures asked { IsAskedFor job.old.request job.old.what job.old.id (length self.old.room.items)
            (link_of W.contents R.remaining self.old) (link_of W.contents R.remaining self.new) job.new.heard }
        ensures room { length self.new.room.items ≡ length self.old.room.items }
    {
        match self.ask(job.request.as_str(), job.what.as_str(), job.id.as_str()) {
            Ok(answer) => job.keep_line(answer),
            Err(why) => job.keep_silence(why),
        }
    }
}

impl<R: Read, W: Write> Place<HostJob> for Channel<R, W> {
    ghost led = { HasLedTo W.contents R.remaining };

    ghost unasked = { unasked_channel W.contents R.remaining };

    fn run(&mut self, _node: NodeId, job: &mut HostJob) -> Outcome {
        self.serve(job)
    }

    fn is_open(&self) -> bool {
        Channel::is_open(self)
    }
}
