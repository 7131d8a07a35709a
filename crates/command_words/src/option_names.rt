//! The program's options, as clap is told of them, each with its help.

ghost use Rattle.std.specs.Prelude.{◌≡◌, ◌∷◌, [], IfOk, false, fold, map};
ghost use Rattle.clap.specs.Words.{app_of, rule_of, with_rule};
ghost use Rattle.command_words.specs.Commands.{configuring, ending, excluding, filtering, printing, replaying, running};
ghost use Rattle.command_words.specs.Commands.{selecting};
ghost use Rattle.command_words.specs.Commands.{flag, maybe_lettered, bare_program, program, repeated, rule_by, rule_told, single};
ghost use Rattle.command_words.specs.Commands.{with_letter, with_rules};

use crate::info::VERSION;
use clap::{Arg, ArgAction, Command};
use launch_options::option_names::{
    CONFIG, DETAILS, DETAILS_THEME, DRIVE, EXCLUDE_CLASS, EXCLUDE_METHOD, EXCLUDE_NAME,
    EXCLUDE_PACKAGE, EXCLUDE_TAG, EXCLUDE_UNIQUE_ID, FAIL_FAST, FAIL_IF_NO_TESTS,
    FAIL_IF_PASSED_OVER, INCLUDE_NAME, INCLUDE_TAG, MAX_FAIL, MOST_NODES, PROCESSORS, QUIET,
    REPLAY, REPORT, RERUN, RING, SCHEDULE, SEED, SELECT_CLASS, SELECT_METHOD, SELECT_PACKAGE,
    SELECT_UNIQUE_ID, SHARD, SUITE, SYSTEM, TIMES, WORKERS,
};
use messages::Subject;
use std::alloc::{AllocError, Global};

/// What stands behind an option: a value, with what help calls it, or none.
#[derive(Clone, Copy)]
pub(crate) enum OptionForm<'a> {
    /// It has no value.
    Flag,
    /// It is given once.
    Single(&'a str),
    /// It may be given again.
    Repeated(&'a str),
}

/// An option of the program, with its name and its help.
#[derive(Clone, Copy)]
pub(crate) struct ProgramOption<'a> {
    pub(crate) name: &'a str,
    /// The letter that stands for it behind one dash, if there is one.
    pub(crate) letter: Option<char>,
    pub(crate) form: OptionForm<'a>,
    pub(crate) help: &'a str,
}

fn single<'a>(name: &'a str, value: &'a str, help: &'a str) -> ProgramOption<'a>
    ensures { rule_told result ≡ single name.now }
{
    ProgramOption {
        name,
        letter: None,
        form: OptionForm::Single(value),
        help,
    }
}

fn repeated<'a>(name: &'a str, value: &'a str, help: &'a str) -> ProgramOption<'a>
    ensures { rule_told result ≡ repeated name.now }
{
    ProgramOption {
        name,
        letter: None,
        form: OptionForm::Repeated(value),
        help,
    }
}

fn flag<'a>(name: &'a str, help: &'a str) -> ProgramOption<'a>
    ensures { rule_told result ≡ flag name.now }
{
    ProgramOption {
        name,
        letter: None,
        form: OptionForm::Flag,
        help,
    }
}

/// The option with a letter that stands for it behind one dash.
fn with_letter<'a>(letter: char, told: ProgramOption<'a>) -> ProgramOption<'a>
    ensures { rule_told result ≡ with_letter letter (rule_told told.entry) }
{
    ProgramOption {
        name: told.name,
        letter: Some(letter),
        form: told.form,
        help: told.help,
    }
}

/// The help of an option where a suite is run, and where a program's own tests are.
fn help_by<'a>(subject: Subject<'_>, suite: &'a str, tests: &'a str) -> &'a str {
    match subject {
        Subject::Suite(_) => suite,
        Subject::Tests(_) => tests,
    }
}

/// Why a program's own tests have no option that says which suite is read, or how large it may be.
const IS_OF_SUITES: &str = "Is refused: the tests are the program's own";

/// Why they have none by which steps are taken.
const IS_REFUSED: &str = "Is refused: what real tests answer nobody knows before they have run";

/// The options that say which nodes run, and those that look at the names of tests.
fn selecting<'a>() -> [ProgramOption<'a>; 6]
    ensures { map rule_told result ≡ selecting }
{
    [
        repeated(
            SELECT_UNIQUE_ID,
            "ID",
            "Runs the node of this id, as in [engine:e]/[class:a.B], and all below",
        ),
        repeated(
            SELECT_CLASS,
            "CLASS",
            "Runs the classes of this name, as in a.B",
        ),
        repeated(
            SELECT_METHOD,
            "CLASS#METHOD",
            "Runs the test or factory of this name, as in a.B#t()",
        ),
        repeated(
            SELECT_PACKAGE,
            "PACKAGE",
            "Runs the classes of this package, as in a.b",
        ),
        with_letter(
            'k',
            repeated(
                INCLUDE_NAME,
                "PATTERN",
                "Runs only what has a CLASS#METHOD like this, as in *#order*",
            ),
        ),
        repeated(
            EXCLUDE_NAME,
            "PATTERN",
            "Runs nothing that has a CLASS#METHOD like this",
        ),
    ]
}

/// The options that leave nodes out, and all but what is to be run again.
fn excluding<'a>() -> [ProgramOption<'a>; 5]
    ensures { map rule_told result ≡ excluding }
{
    [
        repeated(
            EXCLUDE_UNIQUE_ID,
            "ID",
            "Leaves out the node of this id, and all below",
        ),
        repeated(
            EXCLUDE_CLASS,
            "CLASS",
            "Leaves out the classes of this name",
        ),
        repeated(
            EXCLUDE_METHOD,
            "CLASS#METHOD",
            "Leaves out the test or factory of this name",
        ),
        repeated(
            EXCLUDE_PACKAGE,
            "PACKAGE",
            "Leaves out the classes of this package",
        ),
        repeated(
            RERUN,
            "ID",
            "Runs only nodes of these ids; --rerun-failed FILE: what failed there",
        ),
    ]
}

/// The options that say which tags run, which shard, and in which order.
fn filtering<'a>() -> [ProgramOption<'a>; 4]
    ensures { map rule_told result ≡ filtering }
{
    [
        repeated(
            INCLUDE_TAG,
            "EXPRESSION",
            "Runs only what has tags that make this true, as in \"slow & !db\"",
        ),
        repeated(
            EXCLUDE_TAG,
            "EXPRESSION",
            "Runs nothing that has tags that make this true",
        ),
        single(
            SHARD,
            "[hash:]K/N",
            "Runs each N-th test from the K-th, or by hash; shards share no locks",
        ),
        single(
            SEED,
            "N|random",
            "Runs the children of each container in an order drawn from N",
        ),
    ]
}

/// The options that say which suite is run, and with which settings.
fn configuring<'a>(subject: Subject<'_>) -> [ProgramOption<'a>; 4]
    ensures { map rule_told result ≡ configuring }
{
    [
        single(
            SUITE,
            "FILE",
            help_by(
                subject,
                "Reads the suite from this file, and not from standard input",
                IS_OF_SUITES,
            ),
        ),
        single(
            MOST_NODES,
            "N",
            help_by(
                subject,
                "Most nodes that the suite may have, 4095 to 16383 [default: 4095]",
                IS_OF_SUITES,
            ),
        ),
        repeated(
            CONFIG,
            "KEY=VALUE",
            help_by(
                subject,
                "Sets a parameter over the system and the suite",
                "Sets a parameter over the system and the tests",
            ),
        ),
        repeated(
            SYSTEM,
            "KEY=VALUE",
            help_by(
                subject,
                "Sets a parameter over the suite",
                "Sets a parameter over the tests",
            ),
        ),
    ]
}

/// The options that say how much runs side by side.
fn running<'a>() -> [ProgramOption<'a>; 3]
    ensures { map rule_told result ≡ running }
{
    [
        single(
            PROCESSORS,
            "N",
            "How many processors there are, 1 to 1024 [default: 1]",
        ),
        with_letter(
            'j',
            single(
                WORKERS,
                "N|auto",
                "Runs side by side on so many workers, 1 to 64; auto: --processors",
            ),
        ),
        single(
            RING,
            "N",
            "Most events shown before they are told, 1 to 16384 [default: 1024]",
        ),
    ]
}

/// The options that say what is printed of what happened.
fn printing<'a>() -> [ProgramOption<'a>; 5]
    ensures { map rule_told result ≡ printing }
{
    [
        single(
            DETAILS,
            "FORM",
            "none, summary, tree, testfeed, json, xml, list or plan [default: tree]",
        ),
        with_letter(
            'q',
            flag(QUIET, "Prints the summary alone, as --details summary does"),
        ),
        single(
            DETAILS_THEME,
            "THEME",
            "The signs of the tree: unicode or ascii [default: unicode]",
        ),
        repeated(
            REPORT,
            "FORM=FILE",
            "Writes the run into a file besides, as in xml=run.xml",
        ),
        flag(
            TIMES,
            "Tells how long tests took: in XML and JSON, and of the ten slowest",
        ),
    ]
}

/// The options that say how a run ends.
fn ending<'a>() -> [ProgramOption<'a>; 3]
    ensures { map rule_told result ≡ ending }
{
    [
        flag(
            FAIL_IF_NO_TESTS,
            "Ends with status 2 where there is no test",
        ),
        with_letter(
            'x',
            flag(FAIL_FAST, "Starts nothing more once a node has failed"),
        ),
        single(
            MAX_FAIL,
            "N",
            "Starts nothing more once N nodes have failed, 1 to 4095",
        ),
    ]
}

/// The options that say which steps are told, and which are taken.
fn replaying<'a>(subject: Subject<'_>) -> [ProgramOption<'a>; 4]
    ensures { map rule_told result ≡ replaying }
{
    [
        flag(
            SCHEDULE,
            help_by(
                subject,
                "Prints, behind a run, steps that --replay takes to just what happened",
                "Prints, behind a run, steps that lead to just what happened",
            ),
        ),
        single(
            REPLAY,
            "STEPS",
            help_by(
                subject,
                "Runs these steps in place of the schedule, as in \"w1:claim:0 w1:draw\"",
                IS_REFUSED,
            ),
        ),
        flag(
            FAIL_IF_PASSED_OVER,
            help_by(
                subject,
                "Ends with status 1 where --replay passes a step over",
                "Says nothing here, since nothing is replayed",
            ),
        ),
        single(
            DRIVE,
            "N",
            help_by(
                subject,
                "Runs by a fixed schedule of N workers, 1 to 64, without threads",
                IS_REFUSED,
            ),
        ),
    ]
}

/// The option as clap takes it, without a letter. Where it has a value its help stands on the next line.
fn long_option<'a>(alloc: Global, told: &ProgramOption<'a>) -> Arg<'a>
    ensures rule { rule_of result ≡ rule_by told.now.name.now told.now.form }
    ensures local { result.global ≡ false }
{
    let option = Arg::new(alloc, told.name).long(told.name).help(told.help);
    match told.form {
        OptionForm::Flag => option.action(ArgAction::SetTrue),
        OptionForm::Single(value) => option.value_name(value).next_line_help(true),
        OptionForm::Repeated(value) => option
            .value_name(value)
            .next_line_help(true)
            .action(ArgAction::Append),
    }
}

/// The option with this letter, if there is one.
fn lettered<'a>(option: Arg<'a>, letter: Option<char>) -> Arg<'a>
    ensures rule { rule_of result ≡ maybe_lettered letter (rule_of option.entry) }
    ensures local { result.global ≡ option.entry.global }
{
    match letter {
        Some(letter) => option.short(letter),
        None => option,
    }
}

/// The option as clap takes it.
fn option_of<'a>(alloc: Global, told: &ProgramOption<'a>) -> Arg<'a>
    ensures rule { rule_of result ≡ rule_told told.now }
    ensures local { result.global ≡ false }
{
    lettered(long_option(alloc, told), told.letter)
}

/// The command with one more option.
fn with<'a>(command: Command<'a>, option: Arg<'a>) -> Result<Command<'a>, AllocError>
    requires { option.global ≡ false }
    ensures { IfOk result (λ longer. app_of longer ≡ with_rule (app_of command.entry) (rule_of option.entry)) }
{
    command.arg(option)
}

/// The command with all of these options too.
fn with_all<'a>(
    alloc: Global,
    command: Command<'a>,
    options: &[ProgramOption<'a>],
) -> Result<Command<'a>, AllocError>
    ensures { IfOk result (λ longer. app_of longer ≡ fold with_rule (app_of command.entry) (map rule_told options.now)) }
{
    let mut longer = command;
    for told in options {
        longer = with(longer, option_of(alloc, told))?;
    }
    Ok(longer)
}

/// The command with the options that say what runs.
fn with_choices<'a>(alloc: Global, command: Command<'a>) -> Result<Command<'a>, AllocError>
    ensures { IfOk result (λ longer. app_of longer ≡ fold with_rules (app_of command.entry)
        (selecting ∷ excluding ∷ filtering ∷ [])) }
{
    let command = with_all(alloc, command, selecting().as_slice())?;
    let command = with_all(alloc, command, excluding().as_slice())?;
    with_all(alloc, command, filtering().as_slice())
}

/// The command with those that say how it runs, and what is printed, with the helps that they have where this is run.
fn with_settings<'a>(
    alloc: Global,
    command: Command<'a>,
    subject: Subject<'_>,
) -> Result<Command<'a>, AllocError>
    ensures { IfOk result (λ longer. app_of longer ≡ fold with_rules (app_of command.entry)
        (configuring ∷ running ∷ printing ∷ ending ∷ replaying ∷ [])) }
{
    let command = with_all(alloc, command, configuring(subject).as_slice())?;
    let command = with_all(alloc, command, running().as_slice())?;
    let command = with_all(alloc, command, printing().as_slice())?;
    let command = with_all(alloc, command, ending().as_slice())?;
    with_all(alloc, command, replaying(subject).as_slice())
}

/// The program without its options, of this version.
fn bare_program<'a>(alloc: Global) -> Command<'a>
    ensures { app_of result ≡ bare_program }
{
    Command::new(alloc, "console").version(VERSION)
}

/// The program and its options.
pub(crate) fn command<'a>(alloc: Global, subject: Subject<'_>) -> Result<Command<'a>, AllocError>
    ensures { IfOk result (λ command. app_of command ≡ program) }
{
    let command = with_choices(alloc, bare_program(alloc))?;
    with_settings(alloc, command, subject)
}
