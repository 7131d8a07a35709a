//! The message of a refusal.

ghost use Rattle.std.specs.Prelude.{◌≡◌, string_bytes};
ghost use Rattle.messages.specs.Messages.{message_text};
ghost use Rattle.messages.specs.Sentences.{sentence_by};
ghost use Rattle.suite_messages.specs.Printable.{HasNoControl};

use crate::sentence::sentence_by;
use crate::settings::push_settings;
use crate::subject::Subject;
use crate::values::{
    push_covering, push_pair, push_report, push_selector, push_step, push_suite_option, push_tags,
    push_unread_suite, push_words,
};
use config_params::SettingsFault;
use launch_options::{CutCause, CutOutput, Given, LaunchFault, most_nodes_named};
use std::alloc::{AllocError, Global};
use std::fmt;
use suite_messages::{printable, push_suite};
use suite_text::SuiteFault;

/// The message of a refusal. `{}` writes its sentence, and on the lines below what is known
/// besides: where it is, and what would be right.
#[derive(Drop)]
pub struct Message {
    pub sentence: &'static str,
    /// Whole lines, or nothing.
    pub details: String,
}

impl fmt::Display for Message {
    ghost use Rattle.std.specs.Prelude.{Some, string_bytes};

    ghost output = { λ message. Some (message_text message.sentence.now (string_bytes message.details)) };

    fn fmt<W: fmt::Write>(&self, f: &mut fmt::Formatter<W>) -> fmt::Result {
        let (sentence, details) = (self.sentence, self.details.as_str());
        write!(f, "{sentence}\n{details}")
    }
}

impl Message {
    /// The message of this refusal of what was to be run, of which these details are known. A control
    /// character of theirs, but an end of line, is a question mark in it; out of memory it has fewer.
    pub fn with_details(
        alloc: Global,
        fault: LaunchFault,
        subject: Subject<'_>,
        details: &str,
    ) -> Message
        ensures sentence { result.sentence.now ≡ sentence_by subject.entry fault }
        ensures printed { HasNoControl (string_bytes result.details) }
    {
        Message {
            sentence: sentence_by(fault, subject),
            details: printable(alloc, details),
        }
    }
}

/// What it takes to open the file of a report.
const UNOPENED: &str =
    "Its folder has to be there, and to be one that files may be made in. Nothing was run.\n";

/// What is there all the same if a report is not kept.
const UNKEPT: &str =
    "The run is over. Standard output is whole, and so is each other report that is there.\n";

/// Appends why arguments that clap took give no options, or none that tests of a program's own can follow.
fn push_refused_words(
    alloc: Global,
    text: &mut String,
    given: &Given<'_>,
    subject: Subject<'_>,
) -> Result<(), AllocError> {
    push_words(alloc, text, given)?;
    match subject {
        Subject::Tests(_) if text.is_empty() => push_suite_option(text, given),
        _ => Ok(()),
    }
}

/// Appends what is wrong with the settings: the value that a fault is about, and without one the
/// number of workers.
fn push_refused_settings(
    alloc: Global,
    text: &mut String,
    fault: Option<SettingsFault>,
    given: &Given<'_>,
    subject: Subject<'_>,
) -> Result<(), AllocError> {
    match subject {
        Subject::Suite(bytes) => push_settings(alloc, text, fault, given, bytes),
        Subject::Tests(said) => text.push_str(said),
    }
}

/// Appends what is wrong with a suite, where that is what is run by these values.
fn push_refused_suite(
    alloc: Global,
    text: &mut String,
    fault: SuiteFault,
    given: &Given<'_>,
    subject: Subject<'_>,
) -> Result<(), AllocError> {
    match subject {
        Subject::Suite(bytes) => {
            let most = most_nodes_named(given.most_nodes).unwrap_or(None);
            push_suite(alloc, text, fault, most, bytes)
        }
        Subject::Tests(_) => Ok(()),
    }
}

/// Appends how much of an output that was cut short went out.
fn push_cut(text: &mut String, cut: CutOutput) -> Result<(), AllocError> {
    let sent = cut.sent;
    match cut.cause {
        CutCause::Writer => write!(text, "It took {sent} bytes, and then failed.\n"),
        CutCause::Memory => write!(text, "{sent} bytes of the feed were printed.\n"),
    }
}

/// Appends what a refusal of these values, or of what was to be run, says besides its sentence.
fn push_details(
    alloc: Global,
    text: &mut String,
    fault: LaunchFault,
    given: &Given<'_>,
    subject: Subject<'_>,
) -> Result<(), AllocError> {
    match fault {
        LaunchFault::NoMemory => Ok(()),
        LaunchFault::Suite(fault) => push_refused_suite(alloc, text, fault, given, subject),
        LaunchFault::BadWords => push_refused_words(alloc, text, given, subject),
        LaunchFault::BadStep(number) => push_step(alloc, text, number, given),
        LaunchFault::BadSelector(refused) => push_selector(alloc, text, refused.number, given),
        LaunchFault::BadTags(fault) => push_tags(alloc, text, fault, given),
        LaunchFault::BadPair(fault) => push_pair(alloc, text, fault, given),
        LaunchFault::BadSettings(fault) => {
            push_refused_settings(alloc, text, Some(fault), given, subject)
        }
        LaunchFault::NothingMatches(number) => push_covering(alloc, text, number, given, subject),
        LaunchFault::TooManyKeys => text.push_str(
            "A run has 256 keys at most, of which one is its own: let the nodes that run declare 255 different ones at most.\n",
        ),
        LaunchFault::TooManyWorkers => push_refused_settings(alloc, text, None, given, subject),
        LaunchFault::NoWorker => text.push_str(
            "A run needs one thread besides the program's own: let other programs end, or raise the limits of processes and of memory.\n",
        ),
        LaunchFault::Reading => push_unread_suite(text, given),
        LaunchFault::BadReport(number) => push_report(alloc, text, number, given, UNOPENED),
        LaunchFault::CutReport(number) => push_report(alloc, text, number, given, UNKEPT),
        LaunchFault::UnreadRun | LaunchFault::BadSavedLine(_) | LaunchFault::UnreadWords(_) => Ok(
            (),
        ),
        LaunchFault::Writing(cut) => push_cut(text, cut),
    }
}

/// What a refusal of these values, or of what was to be run, says besides its sentence; as much of it
/// as there was memory for.
fn details_of(
    alloc: Global,
    fault: LaunchFault,
    given: &Given<'_>,
    subject: Subject<'_>,
) -> String {
    let mut details = String::new(alloc);
    let _ = push_details(alloc, &mut details, fault, given, subject);
    details
}

/// The message of a refusal of these values, or of what was to be run by them. It has no control
/// character but ends of lines.
pub fn message_of(
    alloc: Global,
    fault: LaunchFault,
    given: &Given<'_>,
    subject: Subject<'_>,
) -> Message
    ensures sentence { result.sentence.now ≡ sentence_by subject.entry fault }
    ensures printed { HasNoControl (string_bytes result.details) }
{
    let details = details_of(alloc, fault, given, subject);
    Message::with_details(alloc, fault, subject, details.as_str())
}
