//! The names of the steps, each once: a text of steps is read and written by these.

ghost use Rattle.std.specs.Prelude.{◌≡◌};
ghost use Rattle.std.specs.List.{Contains};
ghost use Rattle.unique_id.specs.Answers.{texts};
ghost use Rattle.scheduling.specs.declared.step.Action.{Action};
ghost use Rattle.step_text.specs.StepForms.{forms, form_text};

/// The dispatcher's step, all of its token.
pub(crate) const READ: &str = "d:read";

pub(crate) const CLAIM: &str = "claim";

pub(crate) const OWN: &str = "own";

pub(crate) const DRAW: &str = "draw";

pub(crate) const SHOW: &str = "show";

pub(crate) const ADMIT: &str = "admit";

pub(crate) const DONE: &str = "done";

pub(crate) const SETTLE: &str = "settle";

pub(crate) const LOOK: &str = "look";

pub(crate) const WEIGH: &str = "weigh";

pub(crate) const TAKE: &str = "take";

pub(crate) const GIVE: &str = "give";

pub(crate) const GIVE_UP: &str = "give_up";

pub(crate) const ADD_CHILD: &str = "add_child";

pub(crate) const NOTICE: &str = "notice";

pub(crate) const RAISE: &str = "raise";

/// How each step of a worker is told: its name, with an `N` in place of a node's number.
pub fn step_forms() -> [&'static str; 15]
    ensures exact { texts result ≡ forms }
    // No step is left out.
    ensures every { (action : Action) → Contains (texts result) (form_text action) }
{
    [
        "claim:N", "own:N", DRAW, SHOW, ADMIT, DONE, SETTLE, LOOK, WEIGH, TAKE, GIVE, GIVE_UP,
        ADD_CHILD, NOTICE, RAISE,
    ]
}
