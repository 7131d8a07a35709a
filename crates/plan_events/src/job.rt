//! What a body has to do.

ghost use Rattle.std.specs.Prelude.{◌≡◌, ◌<◌, List, [], length};

use crate::outcome::Outcome;

/// What a factory's body says when it is asked for its next dynamic test.
#[derive(Clone, Copy)]
pub enum Pull {
    /// There is one more.
    More,
    /// There are no more: it is to be run.
    End,
}

/// A body, which is run once. A factory's body is asked for dynamic tests before that, until it
/// says that there are no more.
pub trait Job: Drop {
    ghost use Rattle.plan_events.specs.declared.outcome.Outcome.{Outcome};
    ghost use Rattle.plan_events.specs.declared.outcome.Reply.{Reply};
    ghost use Rattle.plan_events.specs.Jobs.{GivesAsPulled, GivesOutcome, IsPull, IsRun, unpulled};

    /// The replies that it may still give.
    ghost answers: { Self → List Reply };

    /// Whether it gives this reply when it is run: what its own code says of that.
    ghost gives: { Self → Reply → Type 0 };

    /// Whether it says, once it was run, that it answered this.
    ghost says: { Self → Outcome → Type 0 };

    /// Whether there is a dynamic test more. It is asked only while it may still give a reply.
    fn next(&mut self) -> Pull
        requires { 0 < length (answers self.old) }
        ensures pull { IsPull (answers self.old) result (answers self.new) }
        ensures given { GivesAsPulled (gives self.old) result (gives self.new) };

    /// Runs it, and answers how it ended. It is run only while it may still give a reply without a dynamic test, so
    /// at most once, and not if it has asked for more dynamic tests than its factory has.
    fn run(&mut self) -> Outcome
        requires { 0 < length (unpulled (answers self.old)) }
        ensures outcome { IsRun (answers self.old) result }
        ensures given { GivesOutcome (gives self.old) result }
        ensures said { says self.new result }
        ensures over { answers self.new ≡ [] };
}

impl Job for Box<dyn Job + Send> {
    ghost answers = { λ b. (Job-box b).answers b.value };

    ghost gives = { λ b. (Job-box b).gives b.value };

    ghost says = { λ b. (Job-box b).says b.value };

    fn next(&mut self) -> Pull {
        (**self).next()
    }

    fn run(&mut self) -> Outcome {
        (**self).run()
    }
}
