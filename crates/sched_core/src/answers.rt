//! What the jobs of a plan answer.

ghost use Rattle.std.specs.Prelude.{◌≡◌, IsTrue, None, Some, MatchOption};
ghost use Rattle.scheduling.specs.Answers.{answer_of};
ghost use Rattle.sched_core.specs.Replies.{reply_to};
ghost use Rattle.sched_core.specs.Steps.{reply_awaited};
ghost use Rattle.sched_core.specs.Inside.AnswerFields.{IsInOrder};

use descriptor::BodyId;
use plan_events::{Reply, Status};
use scheduling::Answer;
use std::marker::Model;

/// What a step knows of a body without a reply.
const SILENT: Answer = Answer {
    pulls: 0,
    status: Status::Successful,
};

/// What each body answers, wherever it runs. A body without a reply is successful, without text and without pulls.
pub struct Answers {
    replies: Vec<(BodyId, Reply)>,
    // whether the bodies are known to rise along the replies, so that no search goes over all of them
    in_order: bool,
}

impl Drop for Answers {
    fn drop(self) {
        let Answers {
            replies: _,
            in_order: _,
        } = self;
    }
}

impl Model for Answers {
    ghost use Rattle.std.specs.Prelude.{List, ℕ};
    ghost use Rattle.plan_events.specs.declared.outcome.Reply.{Reply};

    ghost Value = { List (ℕ × Reply) };

    ghost use Rattle.sched_core.specs.Inside.AnswerFields.{IsOrderKnown};

    ghost view = { λ a. a.replies.items };

    ghost invariant = { IsOrderKnown };
}

/// Whether the bodies rise along the replies.
fn is_in_order(replies: &[(BodyId, Reply)]) -> bool
    ensures { IsTrue result → IsInOrder replies.now }
{
    replies.is_sorted_by(|one, next| one.0.number() < next.0.number())
}

/// The reply that stands with a body, where the bodies rise along the replies.
fn found_by_halving(replies: &[(BodyId, Reply)], body: BodyId) -> Option<&Reply>
    requires { IsInOrder replies.now }
    ensures { MatchOption result (reply_to replies.now body ≡ None)
        (λ reply. reply_to replies.now body ≡ Some reply.now) }
{
    match replies.binary_search_by_key(&body.number(), |answer| answer.0.number()) {
        Ok(place) => Some(&replies[place].1),
        Err(_) => None,
    }
}

/// The first reply that stands with a body.
fn found_in_a_row(replies: &[(BodyId, Reply)], body: BodyId) -> Option<&Reply>
    ensures { MatchOption result (reply_to replies.now body ≡ None)
        (λ reply. reply_to replies.now body ≡ Some reply.now) }
{
    for answer in replies {
        if answer.0 == body {
            return Some(&answer.1);
        }
    }
    None
}

/// The reply that stands with a body, where the bodies rise along the replies. It is looked for first at this place.
fn found_near(replies: &[(BodyId, Reply)], place: usize, body: BodyId) -> Option<&Reply>
    requires { IsInOrder replies.now }
    ensures { MatchOption result (reply_to replies.now body ≡ None)
        (λ reply. reply_to replies.now body ≡ Some reply.now) }
{
    match replies.get(place) {
        Some(answer) if answer.0 == body => Some(&answer.1),
        _ => found_by_halving(replies, body),
    }
}

impl Answers {
    /// These replies. Of two with the same body the first counts. Where each body is greater than the one before it,
    /// `reply` takes as many steps as the number of replies can be halved; else it may look at each of them.
    pub fn of(replies: Vec<(BodyId, Reply)>) -> Answers
        ensures { result ≡ replies.items }
    {
        let in_order = is_in_order(replies.as_slice());
        Answers { replies, in_order }
    }

    /// The first reply that stands with the body, if one does.
    pub fn reply(&self, body: BodyId) -> Option<&Reply>
        ensures { MatchOption result (reply_to self.now body ≡ None)
            (λ reply. reply_to self.now body ≡ Some reply.now) }
    {
        if self.in_order {
            found_by_halving(self.replies.as_slice(), body)
        } else {
            found_in_a_row(self.replies.as_slice(), body)
        }
    }

    /// The first reply that stands with the body, if one does. It is found at once if it stands at this place, from 0,
    /// and the bodies rise along the replies; else as `reply` finds it.
    pub fn reply_near(&self, place: usize, body: BodyId) -> Option<&Reply>
        ensures { MatchOption result (reply_to self.now body ≡ None)
            (λ reply. reply_to self.now body ≡ Some reply.now) }
    {
        if self.in_order {
            found_near(self.replies.as_slice(), place, body)
        } else {
            found_in_a_row(self.replies.as_slice(), body)
        }
    }

    /// What a step has to know of the reply of a body, where one is awaited.
    pub(crate) fn answer(&self, body: Option<BodyId>) -> Answer
        ensures { result ≡ answer_of (reply_awaited self.now body) }
    {
        let Some(body) = body else {
            return SILENT;
        };
        match self.reply(body) {
            Some(reply) => Answer {
                pulls: reply.pulls,
                status: reply.outcome.status,
            },
            None => SILENT,
        }
    }
}
