//! Jobs of a second kind, which count how often they are run.

ghost use Rattle.std.specs.Prelude.{◌≡◌};
ghost use Rattle.test_jobs.specs.Acting.{gives_any, replies_left, says_any};
ghost use Rattle.test_jobs.specs.Counting.{replies_counted};

use crate::acting::Actor;
use plan_events::{Job, Outcome, Pull};

/// A job that does what an actor does, and counts on the board of that how often it is run.
#[derive(Drop)]
pub struct Counted {
    actor: Actor,
}

impl Counted {
    /// The job that does what this one does.
    pub fn new(actor: Actor) -> Counted
        ensures { replies_counted result ≡ replies_left actor }
    {
        Counted { actor }
    }
}

impl Job for Counted {
    ghost answers = { replies_counted };

    ghost gives = { λ job. gives_any };

    ghost says = { λ job. says_any };

    fn next(&mut self) -> Pull {
        self.actor.next()
    }

    fn run(&mut self) -> Outcome {
        self.actor.board.count_run();
        self.actor.finish()
    }
}
