//! What is wrong with the values of options.

ghost use Rattle.std.specs.Prelude.{◌≡◌};
ghost use Rattle.std.specs.Option.{is_some};
ghost use Rattle.tag_expr.specs.ExpressionFaults.{expression_refusal};

use crate::foreign_forms::meant_by_form;
use crate::options::{exclusion_of, form_of, option_of, pair_option};
use crate::subject::Subject;
use config_params::ParamsFault;
use launch_options::option_names::{
    CONFIG, DETAILS, DETAILS_THEME, DRIVE, EXCLUDE_TAG, INCLUDE_TAG, MAX_FAIL, MOST_NODES,
    PROCESSORS, REPLAY, REPORT, RERUN, RING, SEED, SHARD, SUITE, WORKERS,
};
use launch_options::{
    Details, Given, drive_named, has_long_key, max_fail_named, most_nodes_named, processors_named,
    report_in, ring_named, seed_named, shard_named, theme_names, theme_of, workers_named,
};
use selectors::SelectorKind;
use std::alloc::{AllocError, Global};
use step_text::step_forms;
use suite_messages::{push_marked, push_nearest, push_nearest_name};
use tag_expr::{TagExpr, TagFault};
use unique_id::{UidFault, UniqueId};

/// Appends an option with its value, and a mark below this byte of the value.
fn push_option(
    alloc: Global,
    text: &mut String,
    option: &str,
    value: &str,
    at: usize,
) -> Result<(), AllocError> {
    let line = format!(in alloc; "--{option} {value}")?;
    let front = option.len().saturating_add(3);
    push_marked(alloc, text, line.as_str(), front.saturating_add(at))
}

/// Appends what is meant by a value, if that is known, or which of these is nearest.
fn push_meant(
    alloc: Global,
    text: &mut String,
    value: &str,
    known: &[&str],
    meant: Option<&str>,
) -> Result<(), AllocError> {
    match meant {
        Some(meant) => write!(text, "; {meant}"),
        None => push_nearest(alloc, text, known, value),
    }
}

/// Appends that an option's value, by which this is meant, if that is known, is none of these.
fn push_choice(
    alloc: Global,
    text: &mut String,
    option: &str,
    value: &str,
    known: &[&str],
    meant: Option<&str>,
) -> Result<(), AllocError> {
    write!(text, "--{option} is one of")?;
    for (index, name) in known.iter().enumerate() {
        let sign = if index == 0 { "" } else { "," };
        write!(text, "{sign} {name}")?;
    }
    push_meant(alloc, text, value, known, meant)?;
    text.push_str("\n")?;
    push_option(alloc, text, option, value, 0)
}

/// Appends that an option's value is no number from 1 to this most.
fn push_range(
    alloc: Global,
    text: &mut String,
    option: &str,
    value: &str,
    most: &str,
) -> Result<(), AllocError> {
    write!(text, "--{option} is a number from 1 to {most}\n")?;
    push_option(alloc, text, option, value, 0)
}

/// Appends an argument of `--report`.
fn push_report_word(alloc: Global, text: &mut String, word: &str) -> Result<(), AllocError> {
    push_option(alloc, text, REPORT, word, 0)
}

/// Appends why `--report` is refused: a text asks for none, or two for one file, or nothing is run.
fn push_reports(alloc: Global, text: &mut String, given: &Given<'_>) -> Result<(), AllocError> {
    for word in given.reports.as_slice() {
        if report_in(word).is_none() {
            text.push_str(
                "--report is FORM=FILE, with summary, tree, testfeed, json, xml or list as FORM",
            )?;
            let form = word.split_once('=').unwrap_or(("", "")).0;
            if let Some(meant) = meant_by_form(form) {
                write!(text, "; {meant}")?;
            }
            text.push_str("\n")?;
            return push_report_word(alloc, text, word);
        }
    }
    match given.reports.as_slice().last() {
        Some(word) => {
            text.push_str(
                "--report names each FILE once, and is of a suite that is run: not with --replay, nor with --details list or plan\n",
            )?;
            push_report_word(alloc, text, word)
        }
        None => Ok(()),
    }
}

/// Appends which report a refusal is about, by its number from 1, and what it takes to write one.
pub(crate) fn push_report(
    alloc: Global,
    text: &mut String,
    number: usize,
    given: &Given<'_>,
    why: &str,
) -> Result<(), AllocError> {
    if let Some(word) = given.reports.as_slice().get(number.saturating_sub(1)) {
        push_report_word(alloc, text, word)?;
    }
    text.push_str(why)
}

/// Appends why `--seed` is refused, if it is: it is no such number; and else why `--report` is.
fn push_seed(alloc: Global, text: &mut String, given: &Given<'_>) -> Result<(), AllocError> {
    match given.seed {
        Some(value) if seed_named(given.seed).is_err() => {
            text.push_str("--seed is a number below 2^64, or random\n")?;
            push_option(alloc, text, SEED, value, 0)
        }
        Some(_) | None => push_reports(alloc, text, given),
    }
}

/// Appends why `--shard` is refused, if it is: it names no shard; and else why `--seed` is.
fn push_shard(alloc: Global, text: &mut String, given: &Given<'_>) -> Result<(), AllocError> {
    match given.shard {
        Some(value) if shard_named(given.shard).is_err() => {
            text.push_str(
                "--shard is K/N or hash:K/N, with N from 1 to 4,095 and K from 1 to N\n",
            )?;
            push_option(alloc, text, SHARD, value, 0)
        }
        Some(_) | None => push_seed(alloc, text, given),
    }
}

/// Appends why `--most-nodes` is refused, if it is: it is no such number; and else why `--shard` is.
fn push_most_nodes(alloc: Global, text: &mut String, given: &Given<'_>) -> Result<(), AllocError> {
    match given.most_nodes {
        Some(value) if most_nodes_named(given.most_nodes).is_err() => {
            text.push_str("--most-nodes is a number from 4,095 to 16,383, in digits alone\n")?;
            push_option(alloc, text, MOST_NODES, value, 0)
        }
        Some(_) | None => push_shard(alloc, text, given),
    }
}

/// Appends why `--max-fail` is refused, if it is: it is no such number, or `--fail-fast` is given too;
/// and else why `--most-nodes` is.
fn push_max_fail(alloc: Global, text: &mut String, given: &Given<'_>) -> Result<(), AllocError> {
    let Some(value) = given.max_fail else {
        return push_most_nodes(alloc, text, given);
    };
    if max_fail_named(given.max_fail).is_err() {
        text.push_str("--max-fail is a number from 1 to 4,095, in digits alone\n")?;
        return push_option(alloc, text, MAX_FAIL, value, 0);
    }
    if given.fail_fast {
        text.push_str("--fail-fast says --max-fail 1: leave one of the two out\n")?;
        return push_option(alloc, text, MAX_FAIL, value, 0);
    }
    push_most_nodes(alloc, text, given)
}

/// Appends why `--workers` is refused with this value, if it is: it is no number of workers, or
/// `--config` says one of its keys too; and else why `--max-fail` is.
fn push_workers(
    alloc: Global,
    text: &mut String,
    value: &str,
    given: &Given<'_>,
) -> Result<(), AllocError> {
    let processors = processors_named(given.processors).unwrap_or(1);
    if workers_named(processors, Some(value)).is_err() {
        text.push_str("--workers is a number from 1 to 64, or auto: one for each processor\n")?;
        return push_option(alloc, text, WORKERS, value, 0);
    }
    for word in given.config.as_slice() {
        if has_long_key(word) {
            text.push_str("--workers says this too: leave one of the two out\n")?;
            return push_option(alloc, text, CONFIG, word, 0);
        }
    }
    push_max_fail(alloc, text, given)
}

/// Appends which of the values that stand for something is none, or stands beside what it may not: what `--details`, then `--details-theme`, then
/// `--processors`, then `--ring`, then `--drive`, then `--workers`, then `--max-fail`, then `--most-nodes`, then `--shard`,
/// then `--seed`, and then `--report` may be.
pub(crate) fn push_words(
    alloc: Global,
    text: &mut String,
    given: &Given<'_>,
) -> Result<(), AllocError> {
    if let Some(name) = given.details {
        if given.quiet {
            text.push_str("--quiet (-q) says --details summary: leave one of the two out\n")?;
            return push_option(alloc, text, DETAILS, name, 0);
        }
        if Details::named(name).is_none() {
            let (known, meant) = (Details::names(), meant_by_form(name));
            return push_choice(alloc, text, DETAILS, name, known.as_slice(), meant);
        }
    }
    if let Some(name) = given.theme {
        if theme_of(name).is_none() {
            let known = theme_names();
            return push_choice(alloc, text, DETAILS_THEME, name, known.as_slice(), None);
        }
    }
    if let Some(number) = given.processors {
        if processors_named(given.processors).is_err() {
            return push_range(alloc, text, PROCESSORS, number, "1,024");
        }
    }
    if let Some(number) = given.ring {
        if ring_named(given.ring).is_err() {
            return push_range(alloc, text, RING, number, "16,384");
        }
    }
    if let Some(number) = given.drive {
        if drive_named(given.drive).is_err() {
            return push_range(alloc, text, DRIVE, number, "64");
        }
    }
    match given.workers {
        Some(value) => push_workers(alloc, text, value, given),
        None => push_max_fail(alloc, text, given),
    }
}

/// Appends which option asks for what a program's own tests do not have: steps that are taken in a run whose bodies nobody
/// has scripted, a suite, or how many nodes one may have.
pub(crate) fn push_suite_option(text: &mut String, given: &Given<'_>) -> Result<(), AllocError> {
    let steps = match (given.replay, given.drive) {
        (Some(_), _) => Some(REPLAY),
        (None, Some(_)) => Some(DRIVE),
        (None, None) => None,
    };
    if let Some(option) = steps {
        return write!(
            text,
            "--{option} is for suites alone: what real tests answer nobody knows before they have run\n"
        );
    }
    let option = if given.suite.is_some() {
        SUITE
    } else {
        MOST_NODES
    };
    write!(
        text,
        "--{option} is for suites alone: the tests are the program's own\n"
    )
}

/// Appends which file has no suite that can be read, or that standard input has none.
pub(crate) fn push_unread_suite(text: &mut String, given: &Given<'_>) -> Result<(), AllocError> {
    match given.suite {
        Some(name) => write!(
            text,
            "The file is {name}: it has to be there, and one that may be read.\n"
        ),
        None => text.push_str(
            "It is read from standard input, as in `./console < FILE`, or from FILE with --suite FILE.\n",
        ),
    }
}

/// Appends which token of the replay names no step.
pub(crate) fn push_step(
    alloc: Global,
    text: &mut String,
    number: usize,
    given: &Given<'_>,
) -> Result<(), AllocError> {
    let replay = given.replay.unwrap_or("");
    let mut count = 0usize;
    let mut at = 0usize;
    for word in replay.split(' ') {
        if !word.is_empty() {
            count = count.saturating_add(1);
        }
        if count == number {
            write!(
                text,
                "Its word {number} is none: d:read, or wK:STEP with K from 1 to 64"
            )?;
            push_nearest_step(alloc, text, word)?;
            text.push_str("\n")?;
            return push_option(alloc, text, REPLAY, replay, at);
        }
        at = at.saturating_add(word.len()).saturating_add(1);
    }
    Ok(())
}

/// Appends the step that is nearest to that of a token.
fn push_nearest_step(alloc: Global, text: &mut String, word: &str) -> Result<(), AllocError> {
    let (_, step) = word.split_once(':').unwrap_or(("", word));
    push_nearest(alloc, text, step_forms().as_slice(), step)
}

/// A text of a selector, with its kind and its option.
#[derive(Clone, Copy)]
struct Text<'a> {
    option: &'static str,
    kind: SelectorKind,
    value: &'a str,
}

/// What is to be run again at this place, from 0.
fn rerun_at<'a>(given: &Given<'a>, place: usize) -> Option<Text<'a>> {
    let (kind, value) = given.rerun.as_slice().get(place)?;
    Some(Text {
        option: RERUN,
        kind: *kind,
        value: *value,
    })
}

/// The exclusion at this place, from 0; behind exclusions comes what is to be run again.
fn exclusion_at<'a>(given: &Given<'a>, place: usize) -> Option<Text<'a>> {
    let exclusions = given.exclusions.as_slice();
    let Some((kind, value)) = exclusions.get(place) else {
        return rerun_at(given, place.saturating_sub(exclusions.len()));
    };
    Some(Text {
        option: exclusion_of(*kind),
        kind: *kind,
        value: *value,
    })
}

/// The selector of this number, from 1; behind those that select come names, and then exclusions.
fn selector_at<'a>(given: &Given<'a>, number: usize) -> Option<Text<'a>> {
    let (selectors, names) = (given.selectors.as_slice(), given.names.as_slice());
    let place = number.saturating_sub(1);
    let behind = place.saturating_sub(selectors.len());
    let found = match selectors.get(place) {
        Some(text) => Some(text),
        None => names.get(behind),
    };
    match found {
        Some((kind, value)) => Some(Text {
            option: option_of(*kind),
            kind: *kind,
            value: *value,
        }),
        None => exclusion_at(given, behind.saturating_sub(names.len())),
    }
}

/// What is wrong in a text that is no unique id.
fn said_of_id(fault: UidFault) -> &'static str {
    match fault {
        UidFault::NoMemory => "",
        UidFault::Empty => "the id is empty",
        UidFault::NoBracket(_) => "a [, a ], or a / behind a segment belongs there",
        UidFault::NoColon(_) => "a : belongs there, behind the type of the segment",
        UidFault::BadEscape(_) =>
            "a % stands before two hexadecimal digits, which give the bytes of a text",
        UidFault::EmptyPart(_) => "the part that ends there is empty",
        UidFault::TooLong => "an id has at most 64 segments and 1,024 bytes",
    }
}

/// Appends what is wrong in a unique id.
fn push_id(alloc: Global, text: &mut String, option: &str, id: &str) -> Result<(), AllocError> {
    let Err(fault) = UniqueId::parse(alloc, id) else {
        return Ok(());
    };
    let said = said_of_id(fault);
    write!(text, "{said}\n")?;
    let at = fault.place().unwrap_or(0);
    push_option(alloc, text, option, id, at)
}

/// Appends which selector cannot be read.
pub(crate) fn push_selector(
    alloc: Global,
    text: &mut String,
    number: usize,
    given: &Given<'_>,
) -> Result<(), AllocError> {
    let Some(selector) = selector_at(given, number) else {
        return Ok(());
    };
    let form = form_of(selector.kind);
    write!(text, "Selector {number} is {form}")?;
    if let SelectorKind::UniqueId = selector.kind {
        text.push_str(": ")?;
        return push_id(alloc, text, selector.option, selector.value);
    }
    text.push_str("\n")?;
    push_option(alloc, text, selector.option, selector.value, 0)
}

/// Appends what this pattern, which has no `*`, has to match.
fn push_whole_pattern(alloc: Global, text: &mut String, value: &str) -> Result<(), AllocError> {
    let pattern = format!(in alloc; "*{value}*")?;
    write!(
        text,
        "; a pattern without * is the whole CLASS#METHOD, and {pattern:?} matches each that contains it"
    )
}

/// Appends that no node has this name, and of a suite the name that is nearest.
fn push_no_node(
    alloc: Global,
    text: &mut String,
    kind: SelectorKind,
    value: &str,
    subject: Subject<'_>,
) -> Result<(), AllocError> {
    let name = match kind {
        SelectorKind::Name => "such a name",
        _ => "that name",
    };
    match subject {
        Subject::Suite(bytes) => {
            write!(text, "no node of the suite has {name}")?;
            push_nearest_name(alloc, text, kind, value, bytes)?;
        }
        Subject::Tests(_) => write!(text, "no node of these tests has {name}")?,
    }
    match kind {
        SelectorKind::Name if !value.contains('*') => push_whole_pattern(alloc, text, value),
        _ => Ok(()),
    }
}

/// Appends which selector covers nothing.
pub(crate) fn push_covering(
    alloc: Global,
    text: &mut String,
    number: usize,
    given: &Given<'_>,
    subject: Subject<'_>,
) -> Result<(), AllocError> {
    let Some(
        Text {
            option,
            kind,
            value,
        },
    ) = selector_at(given, number)
    else {
        return Ok(());
    };
    write!(text, "Selector {number} is --{option} {value:?}, and ")?;
    push_no_node(alloc, text, kind, value, subject)?;
    text.push_str(
        "\nWithout selectors the tree shows the names, and --details testfeed the unique ids.\n",
    )
}

/// What belongs to the place of a tag expression that is refused.
fn said_of_tags(fault: TagFault) -> &'static str {
    match fault {
        TagFault::NoMemory => "",
        TagFault::Empty =>
            "It has tags, any(), none(), !, &, | and parentheses, as in \"slow & !db\"",
        TagFault::BadTag(_) =>
            "A tag has no space, no control character and none of , ( ) & | !: tags are joined by & or |",
        TagFault::OperandMissing(_) => "A tag, any(), none(), ! or ( belongs there",
        TagFault::OperatorMissing(_) => "An & or an | belongs there",
        TagFault::ParenOpen(_) => "A ) belongs behind it",
        TagFault::ParenClose(_) => "No ( stands before it that is still open",
        TagFault::TooDeep =>
            "It has at most 1,024 bytes, and at most 64 of ! and ( that wait for their end",
    }
}

/// Whether a text is refused as a tag expression. Want of memory hides no refusal: so then it is none.
fn is_refused(alloc: Global, expression: &str) -> bool
    ensures { result ≡ is_some (expression_refusal expression.now) }
{
    match TagExpr::parse(alloc, expression) {
        Ok(_) | Err(TagFault::NoMemory) => false,
        Err(_) => true,
    }
}

/// Appends the first of these expressions that is refused; whether there is one.
fn push_expression(
    alloc: Global,
    text: &mut String,
    fault: TagFault,
    option: &str,
    expressions: &[&str],
) -> Result<bool, AllocError> {
    for expression in expressions {
        if is_refused(alloc, expression) {
            let said = said_of_tags(fault);
            write!(text, "{said}\n")?;
            push_option(alloc, text, option, expression, fault.place().unwrap_or(0))?;
            return Ok(true);
        }
    }
    Ok(false)
}

/// Appends which tag expression is refused, and where.
pub(crate) fn push_tags(
    alloc: Global,
    text: &mut String,
    fault: TagFault,
    given: &Given<'_>,
) -> Result<(), AllocError> {
    if push_expression(
        alloc,
        text,
        fault,
        INCLUDE_TAG,
        given.include_tags.as_slice(),
    )? {
        return Ok(());
    }
    push_expression(
        alloc,
        text,
        fault,
        EXCLUDE_TAG,
        given.exclude_tags.as_slice(),
    )?;
    Ok(())
}

/// Appends which argument of `--config` or `--system` is no pair.
pub(crate) fn push_pair(
    alloc: Global,
    text: &mut String,
    fault: ParamsFault,
    given: &Given<'_>,
) -> Result<(), AllocError> {
    let (number, said) = match fault {
        ParamsFault::NoMemory => return Ok(()),
        ParamsFault::NoEquals(number) => (number, "an = and a value belong behind it"),
        ParamsFault::EmptyKey(number) => (number, "a key belongs before the ="),
    };
    let (config, system) = (given.config.as_slice(), given.system.as_slice());
    let option = pair_option(number, config.len());
    let value = match config.get(number.saturating_sub(1)) {
        Some(value) => *value,
        None => match system.get(number.saturating_sub(config.len()).saturating_sub(1)) {
            Some(value) => *value,
            None => "",
        },
    };
    write!(text, "--{option} is KEY=VALUE: {said}\n")?;
    let at = if let ParamsFault::EmptyKey(_) = fault {
        0
    } else {
        value.len()
    };
    push_option(alloc, text, option, value, at)
}
