//! Judging the values of the options before any of them is kept, so that want of memory stands for no
//! refusal: where memory runs out in reading one, its text is none that is refused, and the others
//! are looked at.

ghost use Rattle.std.specs.Prelude.{◌≡◌, ◌≢◌, ◌<◌, ◌+◌, ◌^◌, length, None, Some, IfErr, OnOk, option_map};
ghost use Rattle.std.specs.Option.{is_some};
ghost use Rattle.launch_options.specs.declared.fault.LaunchFault.TheVariants.{NoMemory, BadTags};
ghost use Rattle.tag_expr.specs.ExpressionFaults.{expression_refusal};
ghost use Rattle.launch_options.specs.Given.{behind, maybe_behind, texts_of, values_of};
ghost use Rattle.launch_options.specs.Asked.{asked_refusal, bad_selector, replay_refusal, spelled};
ghost use Rattle.launch_options.specs.Asked.{selectors_refusal, tags_refusal, texts_refusal};

use crate::fault::{LaunchFault, RefusedSelector};
use crate::given::Given;
use selectors::{Selector, SelectorFault, SelectorKind};
use std::alloc::Global;
use step_text::{StepsFault, parse_steps};
use tag_expr::{TagExpr, TagFault};

/// Judges the text of a replay.
fn judge_replay(alloc: Global, text: Option<&str>) -> Result<(), LaunchFault>
    ensures accepted { OnOk result (replay_refusal (maybe_behind text.entry) ≡ None) }
    ensures refused { IfErr result (λ fault. replay_refusal (maybe_behind text.entry) ≡ Some fault) }
    ensures real { IfErr result (λ fault. fault ≢ NoMemory) }
{
    let Some(text) = text else {
        return Ok(());
    };
    match parse_steps(alloc, text) {
        Ok(_) | Err(StepsFault::NoMemory) => Ok(()),
        Err(StepsFault::BadStep(number)) => Err(LaunchFault::BadStep(number)),
    }
}

/// Whether a text spells a selector of this kind.
fn spells_selector(alloc: Global, kind: SelectorKind, text: &str) -> bool
    ensures { result ≡ is_some (spelled (kind, text.now)) }
{
    match Selector::parse(alloc, kind, text) {
        Ok(_) | Err(SelectorFault::NoMemory) => true,
        Err(_) => false,
    }
}

/// The refusal of a text of this kind and number.
fn bad_selector(kind: SelectorKind, number: usize) -> LaunchFault
    ensures { result ≡ bad_selector kind number }
{
    let fault = match kind {
        SelectorKind::Name => SelectorFault::EmptyPattern,
        _ => SelectorFault::BadSelector,
    };
    LaunchFault::BadSelector(RefusedSelector { number, fault })
}

/// Judges texts of selectors, which stand behind so many others.
fn judge_selectors(
    alloc: Global,
    before: usize,
    texts: &[(SelectorKind, &str)],
) -> Result<(), LaunchFault>
    requires few { before + length texts.now < 2 ^ 64 }
    ensures accepted { OnOk result (selectors_refusal (before + 1) (texts_of texts.now) ≡ None) }
    ensures refused { IfErr result (λ fault. selectors_refusal (before + 1) (texts_of texts.now) ≡ Some fault) }
    ensures real { IfErr result (λ fault. fault ≢ NoMemory) }
{
    for (index, (kind, text)) in texts.iter().enumerate() {
        if !spells_selector(alloc, *kind, text) {
            return Err(bad_selector(*kind, before + index + 1));
        }
    }
    Ok(())
}

/// Judges the selectors, then the names, then the exclusions, then what is to be run again, which are
/// numbered in this order.
fn judge_all_selectors(alloc: Global, given: &Given<'_>) -> Result<(), LaunchFault>
    ensures accepted { OnOk result (asked_refusal (values_of given.now) ≡ None) }
    ensures refused { IfErr result (λ fault. asked_refusal (values_of given.now) ≡ Some fault) }
    ensures real { IfErr result (λ fault. fault ≢ NoMemory) }
{
    let selectors = given.selectors.as_slice();
    let names = given.names.as_slice();
    judge_selectors(alloc, 0, selectors)?;
    judge_selectors(alloc, selectors.len(), names)?;
    let exclusions = given.exclusions.as_slice();
    let before = selectors.len() + names.len();
    judge_selectors(alloc, before, exclusions)?;
    judge_selectors(alloc, before + exclusions.len(), given.rerun.as_slice())
}

/// Judges the text of a tag expression.
fn judge_expression(alloc: Global, text: &str) -> Result<(), LaunchFault>
    ensures accepted { OnOk result (expression_refusal text.now ≡ None) }
    ensures refused { IfErr result (λ fault. option_map BadTags (expression_refusal text.now) ≡ Some fault) }
    ensures real { IfErr result (λ fault. fault ≢ NoMemory) }
{
    match TagExpr::parse(alloc, text) {
        Ok(_) | Err(TagFault::NoMemory) => Ok(()),
        Err(fault) => Err(LaunchFault::BadTags(fault)),
    }
}

/// Judges the texts of tag expressions.
fn judge_expressions(alloc: Global, texts: &[&str]) -> Result<(), LaunchFault>
    ensures accepted { OnOk result (tags_refusal (behind texts.now) ≡ None) }
    ensures refused { IfErr result (λ fault. tags_refusal (behind texts.now) ≡ Some fault) }
    ensures real { IfErr result (λ fault. fault ≢ NoMemory) }
{
    for text in texts {
        judge_expression(alloc, text)?;
    }
    Ok(())
}

/// Judges the steps of a replay, the selectors and the tag expressions, in this order.
pub(crate) fn judge_texts(alloc: Global, given: &Given<'_>) -> Result<(), LaunchFault>
    ensures accepted { OnOk result (texts_refusal (values_of given.now) ≡ None) }
    ensures refused { IfErr result (λ fault. texts_refusal (values_of given.now) ≡ Some fault) }
    ensures real { IfErr result (λ fault. fault ≢ NoMemory) }
{
    judge_replay(alloc, given.replay)?;
    judge_all_selectors(alloc, given)?;
    judge_expressions(alloc, given.include_tags.as_slice())?;
    judge_expressions(alloc, given.exclude_tags.as_slice())
}
