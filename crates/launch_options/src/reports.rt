//! What `--report` asks for, which says `FORM=FILE`.

ghost use Rattle.std.specs.Prelude.{◌≡◌, ◌≢◌, None, Some, IfErr, OnOk, option_map};
ghost use Rattle.std.specs.List.{list_any};
ghost use Rattle.launch_options.specs.DetailsTexts.{details_asked};
ghost use Rattle.launch_options.specs.Given.{behind, maybe_behind};
ghost use Rattle.launch_options.specs.ReportTexts.{asks_for_none, file_of, form_named, if_form, is_form};
ghost use Rattle.launch_options.specs.ReportTexts.{names_file, names_one_twice, parts_of, report_in};
ghost use Rattle.launch_options.specs.ReportTexts.{reports_refusal, runs_plan, with_file};
ghost use Rattle.launch_options.specs.declared.fault.LaunchFault.TheVariants.{NoMemory};

use crate::details::Details;
use crate::fault::LaunchFault;
use crate::given::Given;

/// A report that is asked for: its form, and the file that gets it.
#[derive(Clone, Copy)]
pub struct ReportAsked<'w> {
    pub form: Details,
    pub file: &'w str,
}

/// Whether a report may have this form: something of the run is in it.
fn is_form(details: Details) -> bool
    ensures { result ≡ is_form details }
{
    match details {
        Details::None | Details::Plan => false,
        Details::Summary
        | Details::Tree
        | Details::Testfeed
        | Details::Json
        | Details::Xml
        | Details::List => true,
    }
}

/// The form of this name, if a report may have it.
fn form_named(name: &str) -> Option<Details>
    ensures { result ≡ form_named name.now }
{
    let form = Details::named(name)?;
    if is_form(form) { Some(form) } else { None }
}

/// The report that a text `FORM=FILE` asks for, if it asks for one.
pub fn report_in(text: &str) -> Option<ReportAsked<'_>>
    ensures { option_map parts_of result ≡ report_in text.now }
{
    let (name, file) = text.split_once('=')?;
    let form = form_named(name)?;
    if file.is_empty() {
        return None;
    }
    Some(ReportAsked { form, file })
}

/// Whether one of these texts asks for no report.
fn ask_for_none(texts: &[&str]) -> bool
    ensures { result ≡ list_any asks_for_none (behind texts.now) }
{
    for text in texts {
        if report_in(text).is_none() {
            return true;
        }
    }
    false
}

/// The file that a text names, behind its first equals sign.
fn file_of(text: &str) -> &str
    ensures { result.now ≡ file_of text.now }
{
    match text.split_once('=') {
        Some((_, file)) => file,
        None => "",
    }
}

/// Whether one of these texts names this file.
fn names_file(texts: &[&str], file: &str) -> bool
    ensures { result ≡ names_file (behind texts.now) file.now }
{
    for text in texts {
        if file_of(text) == file {
            return true;
        }
    }
    false
}

/// Whether two of these texts name one file.
fn names_one_twice(texts: &[&str]) -> bool
    ensures { result ≡ names_one_twice (behind texts.now) }
{
    for index in 0..texts.len() {
        if names_file(&texts[index + 1..], file_of(texts[index])) {
            return true;
        }
    }
    false
}

/// Whether a plan is run for these details.
fn runs_plan(details: Details) -> bool
    ensures { result ≡ runs_plan details }
{
    match details {
        Details::List | Details::Plan => false,
        Details::None
        | Details::Summary
        | Details::Tree
        | Details::Testfeed
        | Details::Json
        | Details::Xml => true,
    }
}

/// Judges what `--report` asks for, where these are the details.
pub(crate) fn judge_reports(given: &Given<'_>, details: Details) -> Result<(), LaunchFault>
    requires details { details_asked given.now.quiet (maybe_behind given.now.details) ≡ Some details }
    ensures accepted { OnOk result (reports_refusal (behind given.now.reports.items) (maybe_behind given.now.replay)
        (details_asked given.now.quiet (maybe_behind given.now.details)) ≡ None) }
    ensures refused { IfErr result (λ fault. reports_refusal (behind given.now.reports.items)
        (maybe_behind given.now.replay) (details_asked given.now.quiet (maybe_behind given.now.details)) ≡ Some fault) }
    ensures real { IfErr result (λ fault. fault ≢ NoMemory) }
{
    let texts = given.reports.as_slice();
    if texts.is_empty() {
        return Ok(());
    }
    if ask_for_none(texts) || names_one_twice(texts) {
        return Err(LaunchFault::BadWords);
    }
    if given.replay.is_some() || !runs_plan(details) {
        return Err(LaunchFault::BadWords);
    }
    Ok(())
}
