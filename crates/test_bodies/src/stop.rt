//! How a test says that it failed, or that it does not apply.

ghost use Rattle.std.specs.Prelude.{◌≡◌, ◌≤◌, ◌↔◌, true, length, IfErr, IfSome, IsOk};
ghost use Rattle.std.specs.Fmt.Cut.{cut_to, IsTextOrCut};
ghost use Rattle.test_bodies.specs.Stops.{compared, stopped};

use plan_events::Status;
use std::fmt::{Debug, Display, InlineText};
use std::marker::Model;

/// The greatest length of what a test says, in bytes.
pub const LONGEST_TEXT: usize = 512;

/// Why a test did not end well. Its text stands in place, so failing takes no memory. A longer one is cut where a
/// character begins, and then ends in three dots. It has no `Debug`, so every error that has one becomes it by `?`.
#[derive(Drop)]
pub struct Stop {
    status: Status,
    text: InlineText<{ LONGEST_TEXT }>,
}

impl Model for Stop {
    ghost use Rattle.std.specs.Fmt.InlineText.{inline_text};
    ghost use Rattle.plan_events.specs.declared.outcome.Outcome.{Outcome};

    ghost Value = { Outcome };

    ghost view = { λ s. record { status = s.status; text = inline_text s.text } };
}

/// What a test answers.
pub type Checked = Result<(), Stop>;

impl Stop {
    /// The test failed.
    pub fn failed<D: Display + Drop>(why: D) -> Stop
        ensures status { result.status ≡ Status.Failed }
        ensures text { IfSome (D.output why) (λ text. IsTextOrCut 512 text result.text) }
        ensures short { length result.text ≤ 512 }
    {
        Stop {
            status: Status::Failed,
            text: InlineText::of(why),
        }
    }

    /// The test does not apply.
    pub fn aborted<D: Display + Drop>(why: D) -> Stop
        ensures status { result.status ≡ Status.Aborted }
        ensures text { IfSome (D.output why) (λ text. IsTextOrCut 512 text result.text) }
        ensures short { length result.text ≤ 512 }
    {
        Stop {
            status: Status::Aborted,
            text: InlineText::of(why),
        }
    }

    /// The test ended so, and says just this.
    fn with_text(status: Status, why: &str) -> Stop
        ensures { result ≡ stopped status why.now }
    {
        Stop {
            status,
            text: InlineText::new().and_str(why, LONGEST_TEXT),
        }
    }

    /// How the test ended.
    pub fn status(&self) -> Status
        ensures { result ≡ self.now.status }
    {
        self.status
    }

    /// What it says.
    pub fn text(&self) -> &str
        ensures text { result.now ≡ self.now.text }
        ensures short { length result.now ≤ 512 }
    {
        self.text.as_str()
    }
}

impl<E: Debug + Drop> From<E> for Stop {
    ghost use Rattle.plan_events.specs.declared.status.Status.TheVariants.{Failed};

    ghost from_gives = { λ error stop. (stop.status ≡ Failed)
        × IfSome (E.debug_output error) (λ text. IsTextOrCut 512 text stop.text) };

    fn from(error: E) -> Stop {
        Stop::failed(format_args!("{error:?}"))
    }
}

/// The test fails unless this holds.
pub fn check(holds: bool, why: &str) -> Checked
    ensures ok { IsOk result ↔ (holds ≡ true) }
    ensures failed { IfErr result (λ stop. stop ≡ stopped Status.Failed why.now) }
{
    if holds {
        return Ok(());
    }
    Err(Stop::with_text(Status::Failed, why))
}

/// The test does not apply unless this holds.
pub fn assume(holds: bool, why: &str) -> Checked
    ensures ok { IsOk result ↔ (holds ≡ true) }
    ensures aborted { IfErr result (λ stop. stop ≡ stopped Status.Aborted why.now) }
{
    if holds {
        return Ok(());
    }
    Err(Stop::with_text(Status::Aborted, why))
}

/// The test fails unless both are the same.
pub fn check_same<T: PartialEq + Debug>(got: &T, want: &T) -> Checked
    ensures ok { IsOk result ↔ (T.eq got.now want.now ≡ true) }
    ensures failed { IfErr result (λ stop. stop.status ≡ Status.Failed) }
    ensures text { IfErr result (λ stop. IfSome (compared (T.debug_output got.now) (T.debug_output want.now))
        (λ text. IsTextOrCut 512 text stop.text)) }
{
    if *got == *want {
        return Ok(());
    }
    Err(Stop::failed(format_args!("got {got:?}, want {want:?}")))
}
