//! What clap finds for each option.

ghost use Rattle.std.specs.Prelude.{◌≡◌, ◌++◌, IfOk, OnOk, map, option_map};
ghost use Rattle.clap.specs.Words.{all_of, found_of, first_of, rows_of};
ghost use Rattle.launch_options.specs.Given.{behind, texts_of, values_of};
ghost use Rattle.command_words.specs.Found.{all_found as all_in, is_found, nothing_given, of_kind};
ghost use Rattle.command_words.specs.Found.{exclusions_found, names_found, rerun_found, selectors_found, values_in};

use clap::ArgMatches;
use launch_options::Given;
use launch_options::option_names::{
    CONFIG, DETAILS, DETAILS_THEME, DRIVE, EXCLUDE_CLASS, EXCLUDE_METHOD, EXCLUDE_NAME,
    EXCLUDE_PACKAGE, EXCLUDE_TAG, EXCLUDE_UNIQUE_ID, FAIL_FAST, FAIL_IF_NO_TESTS,
    FAIL_IF_PASSED_OVER, INCLUDE_NAME, INCLUDE_TAG, MAX_FAIL, MOST_NODES, PROCESSORS, QUIET,
    REPLAY, REPORT, RERUN, RING, SCHEDULE, SEED, SELECT_CLASS, SELECT_METHOD, SELECT_PACKAGE,
    SELECT_UNIQUE_ID, SHARD, SUITE, SYSTEM, TIMES, WORKERS,
};
use selectors::SelectorKind;
use std::alloc::{AllocError, Global};

/// The values of an option that may be given again, if it is given.
fn values<'m, 'a>(matches: &'m ArgMatches<'a>, name: &str) -> Option<&'m [&'a str]>
    ensures { option_map (λ texts. map (λ text. text.now) texts.now) result ≡ all_of name.now
        (rows_of (found_of matches.now)) }
{
    matches.get_strs(name)
}

/// The values of an option that may be given again.
fn all_found<'a>(
    alloc: Global,
    matches: &ArgMatches<'a>,
    name: &str,
) -> Result<Vec<&'a str>, AllocError>
    ensures { IfOk result (λ texts. behind texts.items ≡ all_in name.now (rows_of (found_of matches.now))) }
{
    let mut texts = Vec::new(alloc);
    if let Some(values) = values(matches, name) {
        texts.extend_from_slice(values)?;
    }
    Ok(texts)
}

/// Appends the values of an option that has selectors of this kind.
fn push_found<'a>(
    texts: &mut Vec<(SelectorKind, &'a str)>,
    matches: &ArgMatches<'a>,
    kind: SelectorKind,
    name: &str,
) -> Result<(), AllocError>
    ensures { OnOk result (texts_of texts.new.items ≡ texts_of texts.old.items
        ++ of_kind kind name.now (rows_of (found_of matches.now))) }
{
    let Some(values) = values(matches, name) else {
        return Ok(());
    };
    for value in values {
        texts.push((kind, *value))?;
    }
    Ok(())
}

/// The texts of the selectors, each with its kind, in the order of their numbers.
fn selectors_found<'a>(
    alloc: Global,
    matches: &ArgMatches<'a>,
) -> Result<Vec<(SelectorKind, &'a str)>, AllocError>
    ensures { IfOk result (λ texts. texts_of texts.items ≡ selectors_found (rows_of (found_of matches.now))) }
{
    let mut texts = Vec::new(alloc);
    push_found(
        &mut texts,
        matches,
        SelectorKind::UniqueId,
        SELECT_UNIQUE_ID,
    )?;
    push_found(&mut texts, matches, SelectorKind::Class, SELECT_CLASS)?;
    push_found(&mut texts, matches, SelectorKind::Method, SELECT_METHOD)?;
    push_found(&mut texts, matches, SelectorKind::Package, SELECT_PACKAGE)?;
    Ok(texts)
}

/// The patterns of names, each with its kind.
fn names_found<'a>(
    alloc: Global,
    matches: &ArgMatches<'a>,
) -> Result<Vec<(SelectorKind, &'a str)>, AllocError>
    ensures { IfOk result (λ texts. texts_of texts.items ≡ names_found (rows_of (found_of matches.now))) }
{
    let mut texts = Vec::new(alloc);
    push_found(&mut texts, matches, SelectorKind::Name, INCLUDE_NAME)?;
    Ok(texts)
}

/// The texts of what is left out, each with its kind, in the order of their numbers.
fn exclusions_found<'a>(
    alloc: Global,
    matches: &ArgMatches<'a>,
) -> Result<Vec<(SelectorKind, &'a str)>, AllocError>
    ensures { IfOk result (λ texts. texts_of texts.items ≡ exclusions_found (rows_of (found_of matches.now))) }
{
    let mut texts = Vec::new(alloc);
    push_found(&mut texts, matches, SelectorKind::Name, EXCLUDE_NAME)?;
    push_found(
        &mut texts,
        matches,
        SelectorKind::UniqueId,
        EXCLUDE_UNIQUE_ID,
    )?;
    push_found(&mut texts, matches, SelectorKind::Class, EXCLUDE_CLASS)?;
    push_found(&mut texts, matches, SelectorKind::Method, EXCLUDE_METHOD)?;
    push_found(&mut texts, matches, SelectorKind::Package, EXCLUDE_PACKAGE)?;
    Ok(texts)
}

/// The ids of what is to be run again, each with its kind.
fn rerun_found<'a>(
    alloc: Global,
    matches: &ArgMatches<'a>,
) -> Result<Vec<(SelectorKind, &'a str)>, AllocError>
    ensures { IfOk result (λ texts. texts_of texts.items ≡ rerun_found (rows_of (found_of matches.now))) }
{
    let mut texts = Vec::new(alloc);
    push_found(&mut texts, matches, SelectorKind::UniqueId, RERUN)?;
    Ok(texts)
}

/// The value of an option, if it is given.
fn found<'a>(matches: &ArgMatches<'a>, name: &str) -> Option<&'a str>
    ensures { option_map (λ text. text.now) result ≡ first_of name.now (rows_of (found_of matches.now)) }
{
    matches.get_str(name)
}

/// Whether a flag is given.
fn is_found(matches: &ArgMatches<'_>, name: &str) -> bool
    ensures { result ≡ is_found name.now (rows_of (found_of matches.now)) }
{
    match found(matches, name) {
        Some(text) => text == "true",
        None => false,
    }
}

/// What clap finds for the options: here each of them is read.
pub(crate) fn given_in<'a>(alloc: Global, matches: &ArgMatches<'a>) -> Result<Given<'a>, AllocError>
    ensures { IfOk result (λ given. values_of given ≡ values_in (rows_of (found_of matches.now))) }
{
    Ok(Given {
        selectors: selectors_found(alloc, matches)?,
        names: names_found(alloc, matches)?,
        exclusions: exclusions_found(alloc, matches)?,
        rerun: rerun_found(alloc, matches)?,
        include_tags: all_found(alloc, matches, INCLUDE_TAG)?,
        exclude_tags: all_found(alloc, matches, EXCLUDE_TAG)?,
        config: all_found(alloc, matches, CONFIG)?,
        system: all_found(alloc, matches, SYSTEM)?,
        reports: all_found(alloc, matches, REPORT)?,
        suite: found(matches, SUITE),
        processors: found(matches, PROCESSORS),
        workers: found(matches, WORKERS),
        ring: found(matches, RING),
        shard: found(matches, SHARD),
        seed: found(matches, SEED),
        details: found(matches, DETAILS),
        quiet: is_found(matches, QUIET),
        theme: found(matches, DETAILS_THEME),
        replay: found(matches, REPLAY),
        fail_if_passed_over: is_found(matches, FAIL_IF_PASSED_OVER),
        drive: found(matches, DRIVE),
        fail_if_no_tests: is_found(matches, FAIL_IF_NO_TESTS),
        fail_fast: is_found(matches, FAIL_FAST),
        max_fail: found(matches, MAX_FAIL),
        most_nodes: found(matches, MOST_NODES),
        schedule: is_found(matches, SCHEDULE),
        times: is_found(matches, TIMES),
    })
}

/// Where no option is given.
pub(crate) fn nothing_given<'a>(alloc: Global) -> Given<'a>
    ensures { values_of result ≡ nothing_given }
{
    Given {
        selectors: Vec::new(alloc),
        names: Vec::new(alloc),
        exclusions: Vec::new(alloc),
        rerun: Vec::new(alloc),
        include_tags: Vec::new(alloc),
        exclude_tags: Vec::new(alloc),
        config: Vec::new(alloc),
        system: Vec::new(alloc),
        reports: Vec::new(alloc),
        suite: None,
        processors: None,
        workers: None,
        ring: None,
        shard: None,
        seed: None,
        details: None,
        quiet: false,
        theme: None,
        replay: None,
        fail_if_passed_over: false,
        drive: None,
        fail_if_no_tests: false,
        fail_fast: false,
        max_fail: None,
        most_nodes: None,
        schedule: false,
        times: false,
    }
}
