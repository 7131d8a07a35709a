//! One token of a text of steps.

ghost use Rattle.std.specs.Prelude.{◌≡◌};
ghost use Rattle.step_text.specs.StepTexts.{is_decimal, number_within, worker_of, node_of, node_action, plain_action};
ghost use Rattle.step_text.specs.StepTexts.{action_of, worker_step, step_of};

use crate::step_names::{
    ADD_CHILD, ADMIT, CLAIM, DONE, DRAW, GIVE, GIVE_UP, LOOK, NOTICE, OWN, RAISE, READ, SETTLE,
    SHOW, TAKE, WEIGH,
};
use descriptor::NodeId;
use scheduling::{Action, Step};
use suite_words::{is_number, number_up_to};

/// Whether a text is a number, with no zero before other digits.
fn is_decimal(text: &str) -> bool
    ensures { result ≡ is_decimal text.now }
{
    is_number(text) && (text.len() == 1 || text.as_bytes()[0] != b'0')
}

/// The number that a text has in decimal, from `least` to `most`.
fn number_within(text: &str, least: u16, most: u16) -> Option<u16>
    ensures { result ≡ number_within least most text.now }
{
    if !is_decimal(text) {
        return None;
    }
    let number = number_up_to(u32::from(most), text)?;
    if u32::from(least) <= number {
        Some(number as u16)
    } else {
        None
    }
}

/// A worker's number.
fn worker_of(text: &str) -> Option<u8>
    ensures { result ≡ worker_of text.now }
{
    let number = number_within(text, 1, 64)?;
    Some(number as u8)
}

/// A node's number.
fn node_of(text: &str) -> Option<NodeId>
    ensures { result ≡ node_of text.now }
{
    let number = number_within(text, 0, 65535)?;
    Some(NodeId::new(number))
}

/// A step that names a node.
fn node_action(name: &str, number: &str) -> Option<Action>
    ensures { result ≡ node_action name.now number.now }
{
    match name {
        CLAIM => Some(Action::Claim(node_of(number)?)),
        OWN => Some(Action::Own(node_of(number)?)),
        _ => None,
    }
}

/// A step that names no node.
fn plain_action(name: &str) -> Option<Action>
    ensures { result ≡ plain_action name.now }
{
    match name {
        DRAW => Some(Action::Draw),
        SHOW => Some(Action::Show),
        ADMIT => Some(Action::Admit),
        DONE => Some(Action::Done),
        SETTLE => Some(Action::Settle),
        LOOK => Some(Action::Look),
        WEIGH => Some(Action::Weigh),
        TAKE => Some(Action::Take),
        GIVE => Some(Action::Give),
        GIVE_UP => Some(Action::GiveUp),
        ADD_CHILD => Some(Action::AddChild),
        NOTICE => Some(Action::Notice),
        RAISE => Some(Action::Raise),
        _ => None,
    }
}

/// What a worker does.
fn action_of(text: &str) -> Option<Action>
    ensures { result ≡ action_of text.now }
{
    match text.split_once(':') {
        Some((name, number)) => node_action(name, number),
        None => plain_action(text),
    }
}

/// A worker's step, of what follows the letter `w`.
fn worker_step(text: &str) -> Option<Step>
    ensures { result ≡ worker_step text.now }
{
    let (worker, action) = text.split_once(':')?;
    Some(Step::Worker(worker_of(worker)?, action_of(action)?))
}

/// The step that a token names.
#[tactic(auto, unfolding(crate::specs::StepTexts::step_of))]
pub fn step_of(word: &str) -> Option<Step>
    ensures { result ≡ step_of word.now }
{
    if word == READ {
        return Some(Step::Read);
    }
    match word.strip_prefix('w') {
        Some(text) => worker_step(text),
        None => None,
    }
}
