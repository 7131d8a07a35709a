//! What a worker owns, and lends to each job that it runs.

ghost use Rattle.std.specs.Prelude.{◌≡◌, ◌<◌, [], length};
ghost use Rattle.plan_events.specs.Jobs.{GivesOutcome, IsRun, unpulled};
ghost use Rattle.workers.specs.Leading.{GoesOnFrom};

use descriptor::NodeId;
use plan_events::{Job, Outcome};

/// A place at which jobs are run. Each worker of a run has one of its own, so two jobs are never at the same place at
/// once: it may be the channel to a process, or a connection to a database.
pub trait Place<B: Job> {
    /// Whether the first place is the second one as it came: what jobs did to it since, one after the other.
    ghost led: { Self → Self → Type 0 };

    /// Runs the job of this node here, and answers how it ended: what the job may answer, gives, and says once it was
    /// run. The place stays the one that it was, and was asked for this job.
    fn run(&mut self, node: NodeId, job: &mut B) -> Outcome
        requires { 0 < length (unpulled (B.answers job.old)) }
        ensures outcome { IsRun (B.answers job.old) result }
        ensures given { GivesOutcome (B.gives job.old) result }
        ensures said { B.says job.new result }
        ensures over { B.answers job.new ≡ [] }
        ensures led { GoesOnFrom led self.old self.new };

    /// Whether jobs are still run here. A place that is closed answers each at once, and none as it should.
    fn is_open(&self) -> bool;

    /// A place that was asked for nothing.
    ghost unasked: { (place : Self) → led place place };
}

/// The place of jobs that need nothing: they run themselves.
impl<B: Job> Place<B> for () {
    ghost led = { λ _ _. Unit {0} };

    ghost unasked = { λ _. tt };

    fn run(&mut self, _node: NodeId, job: &mut B) -> Outcome {
        job.run()
    }

    fn is_open(&self) -> bool {
        true
    }
}
