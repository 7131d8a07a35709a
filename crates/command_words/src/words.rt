//! The arguments of the command line.

ghost use Rattle.std.specs.Prelude.{◌≡◌, ◌≢◌, ◌∷◌, ◌++◌, [], Some, None, Ok, IfOk, IfErr, OnOk, map, string_bytes};
ghost use Rattle.std.specs.List.{filter_map};
ghost use Rattle.clap.specs.Words.{fault_of, found_of, kind_of, rows_of};
ghost use Rattle.launch_options.specs.Asked.{asked_by, AreAsked, refusal_of};
ghost use Rattle.launch_options.specs.Given.{behind, maybe_behind, values_of};
ghost use Rattle.launch_options.specs.ReportTexts.{parts_of, report_in};
ghost use Rattle.launch_options.specs.declared.fault.LaunchFault.TheVariants.{NoMemory};
ghost use Rattle.command_words.specs.Commands.{program};
ghost use Rattle.command_words.specs.Found.{values_in};
ghost use Rattle.command_words.specs.Words.{reports_wanted, suite_wanted, values_given, words_refusal, IsWordsFault, ReadsWords};
ghost use Rattle.command_words.specs.Launches.{options_in};

use crate::found::{given_in, nothing_given};
use crate::launch::Launch;
use crate::option_names::command;
use clap::ArgMatches;
use clap::error::ErrorKind;
use launch_options::{Given, LaunchFault, Options, ReportAsked, report_in};
use messages::Subject;
use std::alloc::{AllocError, Global};

/// What a refusal of clap means: 105, but for want of memory.
fn words_fault(error: &clap::Error) -> LaunchFault
    ensures { IsWordsFault (kind_of error.now) result }
{
    match error.kind() {
        ErrorKind::OutOfMemory => LaunchFault::NoMemory,
        _ => LaunchFault::BadWords,
    }
}

/// What clap finds in the arguments.
fn matches_of<'a>(alloc: Global, words: &'a [String]) -> Result<ArgMatches<'a>, LaunchFault>
    ensures found { IfOk result (λ matches. values_in (rows_of (found_of matches)) ≡ values_given
        (map string_bytes words.entry.now)) }
    ensures accepted { IfOk result (λ _. fault_of program (map string_bytes words.entry.now) ≡ []) }
    ensures refused { IfErr result (λ fault. fault ≢ NoMemory → (fault ≡ LaunchFault.BadWords)
        × (fault_of program (map string_bytes words.entry.now) ≢ [])) }
{
    // what is found does not depend on the helps
    match command(alloc, Subject::Suite(&[]))?.try_get_matches_from(words) {
        Ok(matches) => Ok(matches),
        Err(error) => Err(words_fault(&error)),
    }
}

/// What the arguments give the options, each value as text. Clap is not asked where there is none but the program's
/// name.
pub fn given_by<'a>(alloc: Global, words: &'a [String]) -> Result<Given<'a>, LaunchFault>
    ensures given { IfOk result (λ given. values_of given ≡ values_given (map string_bytes words.entry.now)) }
    ensures accepted { IfOk result (λ _. fault_of program (map string_bytes words.entry.now) ≡ []) }
    ensures refused { IfErr result (λ fault. fault ≢ NoMemory → (fault ≡ LaunchFault.BadWords)
        × (fault_of program (map string_bytes words.entry.now) ≢ [])) }
{
    if words.len() <= 1 {
        return Ok(nothing_given(alloc));
    }
    let matches = matches_of(alloc, words)?;
    Ok(given_in(alloc, &matches)?)
}

/// The options that the arguments give. The first argument is the program's name, whatever it is. Arguments
/// that clap refuses are refusal 105; others ask for what `Options::of` says, and are refused as it
/// says. Clap takes memory before it judges any other argument, so its want of memory may stand in place of
/// each of these refusals.
pub fn read_options(alloc: Global, words: &[String]) -> Result<Options, LaunchFault>
    ensures asked { IfOk result (λ options. AreAsked (values_given (map string_bytes words.now)) (asked_by options)) }
    ensures accepted { IfOk result (λ _. words_refusal (map string_bytes words.now) ≡ None) }
    ensures refused { IfErr result (λ fault. fault ≢ NoMemory → words_refusal (map string_bytes words.now) ≡ Some
        fault) }
    // Clap takes memory first; where it had enough, want of memory hides no refusal of `Options::of`.
    ensures read { ReadsWords (map string_bytes words.now) result }
{
    let given = given_by(alloc, words)?;
    Options::of(alloc, &given)
}

/// Adds the report that a text asks for, if it asks for one.
fn add_report<'w>(reports: &mut Vec<ReportAsked<'w>>, text: &'w str) -> Result<(), AllocError>
    ensures { OnOk result (map parts_of reports.new.items ≡ map parts_of reports.old.items ++ filter_map report_in
        (text.entry.now ∷ [])) }
{
    match report_in(text) {
        Some(asked) => {
            reports.push(asked)?;
            Ok(())
        }
        None => Ok(()),
    }
}

/// The reports that these texts ask for.
fn reports_in<'w>(alloc: Global, texts: &[&'w str]) -> Result<Vec<ReportAsked<'w>>, AllocError>
    ensures { IfOk result (λ reports. map parts_of reports.items ≡ filter_map report_in (behind texts.now)) }
{
    let mut reports = Vec::new(alloc);
    for index in 0..texts.len() {
        add_report(&mut reports, texts[index])?;
    }
    Ok(reports)
}

/// What these values ask for.
fn launch_of<'w>(alloc: Global, given: &Given<'w>) -> Result<Launch<'w>, LaunchFault>
    ensures asked { IfOk result (λ launch. AreAsked (values_of given.now) (asked_by launch.options)) }
    ensures accepted { IfOk result (λ _. refusal_of (values_of given.now) ≡ None) }
    ensures refused { IfErr result (λ fault. fault ≢ NoMemory → refusal_of (values_of given.now) ≡ Some fault) }
    ensures no_memory { IfErr result (λ fault. fault ≡ NoMemory → refusal_of (values_of given.now) ≡ None) }
    ensures reports { IfOk result (λ launch. map parts_of launch.reports.items ≡ filter_map report_in
        (values_of given.now).reports) }
    ensures suite { IfOk result (λ launch. maybe_behind launch.suite ≡ (values_of given.now).suite) }
{
    let options = Options::of(alloc, given)?;
    let reports = reports_in(alloc, given.reports.as_slice())?;
    Ok(Launch {
        options,
        reports,
        suite: given.suite,
    })
}

/// What the arguments ask for. The options are those of `read_options`, and arguments are refused as it says.
pub fn read_launch<'w>(alloc: Global, words: &'w [String]) -> Result<Launch<'w>, LaunchFault>
    ensures reports { IfOk result (λ launch. map parts_of launch.reports.items ≡ reports_wanted
        (map string_bytes words.entry.now)) }
    ensures suite { IfOk result (λ launch. maybe_behind launch.suite ≡ suite_wanted (map string_bytes words.entry.now)) }
    ensures read { ReadsWords (map string_bytes words.entry.now) (options_in result) }
{
    let given = given_by(alloc, words)?;
    launch_of(alloc, &given)
}
