//! Steps, written as a text that names them.

ghost use Rattle.std.specs.Prelude.{◌≡◌, ◌++◌, ◌↔◌, IsTrue, OnOk, Ok, codes, string_bytes};
ghost use Rattle.std.specs.List.{All, flat_map};
ghost use Rattle.step_text.specs.StepSpelling.{spelled_action, spelled_step, steps_text, IsNamable, AreNamable};
ghost use Rattle.step_text.specs.StepTexts.{steps_of};

use crate::step_names::{
    ADD_CHILD, ADMIT, CLAIM, DONE, DRAW, GIVE, GIVE_UP, LOOK, NOTICE, OWN, RAISE, READ, SETTLE,
    SHOW, TAKE, WEIGH,
};
use plan_events::MOST_WORKERS;
use scheduling::{Action, Step};
use std::alloc::AllocError;

/// Appends what a worker does.
fn push_action(text: &mut String, action: Action) -> Result<(), AllocError>
    ensures { OnOk result (string_bytes text.new ≡ string_bytes text.old ++ spelled_action action) }
{
    match action {
        Action::Claim(node) => write!(text, "{}:{}", CLAIM, node.number()),
        Action::Own(node) => write!(text, "{}:{}", OWN, node.number()),
        Action::Draw => text.push_str(DRAW),
        Action::Show => text.push_str(SHOW),
        Action::Admit => text.push_str(ADMIT),
        Action::Done => text.push_str(DONE),
        Action::Settle => text.push_str(SETTLE),
        Action::Look => text.push_str(LOOK),
        Action::Weigh => text.push_str(WEIGH),
        Action::Take => text.push_str(TAKE),
        Action::Give => text.push_str(GIVE),
        Action::GiveUp => text.push_str(GIVE_UP),
        Action::AddChild => text.push_str(ADD_CHILD),
        Action::Notice => text.push_str(NOTICE),
        Action::Raise => text.push_str(RAISE),
    }
}

/// Appends the token of a step.
fn push_step(text: &mut String, step: Step) -> Result<(), AllocError>
    ensures { OnOk result (string_bytes text.new ≡ string_bytes text.old ++ spelled_step step) }
{
    match step {
        Step::Read => text.push_str(READ),
        Step::Worker(worker, action) => {
            write!(text, "w{worker}:")?;
            push_action(text, action)
        }
    }
}

/// Appends the tokens of steps, each behind a blank.
fn push_others(text: &mut String, steps: &[Step]) -> Result<(), AllocError>
    ensures { OnOk result (string_bytes text.new ≡ string_bytes text.old
        ++ flat_map (λ step. codes " " ++ spelled_step step) steps.now) }
{
    for step in steps {
        text.push_str(" ")?;
        push_step(text, *step)?;
    }
    Ok(())
}

/// Appends the text of steps: their tokens, with a blank between each two.
pub fn push_steps(text: &mut String, steps: &[Step]) -> Result<(), AllocError>
    ensures { OnOk result (string_bytes text.new ≡ string_bytes text.old ++ steps_text steps.now) }
{
    let Some((first, others)) = steps.split_first() else {
        return Ok(());
    };
    push_step(text, *first)?;
    push_others(text, others)
}

/// Whether a text can name a step.
fn is_namable(step: Step) -> bool
    ensures { IsTrue result ↔ IsNamable step }
{
    match step {
        Step::Read => true,
        // a node's number has 16 bits, and a text can name each of these
        Step::Worker(worker, _) => 1 <= worker && worker <= MOST_WORKERS,
    }
}

/// Whether a text can name each of these steps.
fn each_is_namable(steps: &[Step]) -> bool
    ensures { IsTrue result ↔ All IsNamable steps.now }
{
    steps.iter().all(|step| is_namable(*step))
}

/// Whether a text can name these steps. Then their text is read as just these.
pub fn are_namable(steps: &[Step]) -> bool
    ensures exact { IsTrue result ↔ AreNamable steps.now }
    ensures read_back { IsTrue result → steps_of (steps_text steps.now) ≡ Ok steps.now }
{
    each_is_namable(steps)
}
