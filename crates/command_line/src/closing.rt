//! What is said once a run is over.

ghost use Rattle.std.specs.Prelude.{◌≡◌, ◌++◌, Err, IfOk, IfSome, map, option_map, string_bytes};
ghost use Rattle.run_outputs.specs.AfterRuns.{line_after};
ghost use Rattle.run_outputs.specs.ExitStatuses.{number_of, status_after};
ghost use Rattle.messages.specs.Sentences.{sentence_by};
ghost use Rattle.command_line.specs.Runs.{Closes, ClosesRun, HasMessage, PrintsLine, PrintsMessage, WentOut};
ghost use Rattle.command_line.specs.Runs.{SaysAll, SaysFailures, SaysHints, SaysIfRun, SaysSeed, SaysText};
ghost use Rattle.command_line.specs.Runs.{refusal_line, seed_line, steps_said, waiting_said};
ghost use Rattle.command_line.specs.Infos.{AsksAfter, EndsUnread, TellsInfo};
ghost use Rattle.launch_options.specs.Given.{maybe_behind};

use arrayvec::ArrayString;
use command_words::{Info, given_by, info_asked, message_of};
use launcher::option_names::{CONFIG, SELECT_UNIQUE_ID, SYSTEM};
use launcher::{AfterRun, Details, ExitStatus, LaunchFault, Options};
use live::{Failures, failed_text};
use messages::{Message, Subject, hints_of, hints_text, names_no_node};
use run_results::print_to;
use std::alloc::{AllocError, Global};
use std::fmt;
use std::io::Write;

/// How the program ended.
#[derive(Clone, Copy, Debug, PartialEq, Eq)]
pub struct Ending {
    /// The exit status.
    pub status: u8,
    /// Whether all of the line of a refusal went out, if there was one to be printed.
    pub is_printed: bool,
    /// Whether all of the message of a refusal went out, if there was one.
    pub is_told: bool,
}

/// What is said behind a replay that passed steps over.
const STEPS_PASSED_OVER: &str =
    "Steps were passed over, since they were not possible in their turn; the last line says how many.\n\
    They lead to just what happened with the suite and the options of the run that they were printed behind.\n";

/// What is said before a suite is read that somebody is to type.
const WAITING: &str =
    "console: a suite is read from standard input; Ctrl-D ends it. --suite FILE reads one from a file, --help lists the options.\n";

/// Room for the line of a refusal: its sentence, a number, and a place of twenty digits.
const LONGEST_LINE: usize = 48;

/// Hands a text to a writer; tells whether all of it went out.
fn goes_out<W: Write>(writer: &mut W, text: &str) -> bool
    ensures { WentOut result (W.contents writer.old) (W.contents writer.new) text.now }
{
    match print_to(writer, text.as_bytes()) {
        Ok(()) => true,
        Err(_) => false,
    }
}

/// Hands two texts to a writer, the one behind the other; tells whether all of both went out.
fn both_go_out<W: Write>(writer: &mut W, front: &str, behind: &str) -> bool
    ensures { WentOut result (W.contents writer.old) (W.contents writer.new) (front.now ++ behind.now) }
{
    if goes_out(&mut *writer, front) {
        goes_out(writer, behind)
    } else {
        false
    }
}

/// The line of a refusal. It takes no memory.
fn line_text(fault: LaunchFault) -> Option<ArrayString<LONGEST_LINE>>
    ensures { IfSome result (λ line. line.bytes ≡ refusal_line fault) }
{
    let mut line = ArrayString::new();
    match fmt::Write::writeln(&mut line, fault) {
        Ok(()) => Some(line),
        Err(_) => None,
    }
}

/// Prints the line of a refusal, if there is one; tells whether all of it went out.
fn print_line<W: Write>(writer: &mut W, line: Option<LaunchFault>) -> bool
    ensures { PrintsLine W.contents line writer.old writer.new result }
{
    match line {
        Some(fault) => match line_text(fault) {
            Some(text) => goes_out(writer, text.as_str()),
            None => false,
        },
        None => true,
    }
}

/// Prints a message, if there is one; tells whether all of it went out.
fn print_message<W: Write>(writer: &mut W, message: Option<Message>) -> bool
    ensures { PrintsMessage W.contents message writer.old writer.new result }
{
    match message {
        Some(said) => {
            if both_go_out(&mut *writer, said.sentence, "\n") {
                goes_out(writer, said.details.as_str())
            } else {
                false
            }
        }
        None => true,
    }
}

/// Prints the line of a refusal on the one writer, unless that failed, and the message on the other.
fn close<W: Write, E: Write>(
    answer: Result<ExitStatus, LaunchFault>,
    message: Option<Message>,
    writer: &mut W,
    errors: &mut E,
) -> Ending
    ensures line { PrintsLine W.contents (line_after answer) writer.old writer.new result.is_printed }
    ensures message { PrintsMessage E.contents message errors.old errors.new result.is_told }
    ensures status { result.status ≡ number_of (status_after answer) }
{
    let after = AfterRun::of(answer);
    let is_printed = print_line(writer, after.line);
    let is_told = print_message(errors, message);
    Ending {
        status: after.status.number(),
        is_printed,
        is_told,
    }
}

/// The message of an answer, if it is a refusal.
fn message_after(
    alloc: Global,
    answer: Result<ExitStatus, LaunchFault>,
    words: &[String],
    subject: Subject<'_>,
) -> Option<Message>
    ensures { HasMessage (sentence_by subject.entry) answer result }
{
    match answer {
        Ok(_) => None,
        Err(fault) => Some(message_of(alloc, fault, words, subject)),
    }
}

/// Tells what was asked for in place of a run. The status is 0, and 255 where not all of it went out.
fn tell_info<W: Write>(info: &Info, writer: &mut W) -> Ending
    ensures { TellsInfo W.contents (string_bytes info.now.text) writer.old writer.new result }
{
    let is_printed = goes_out(writer, info.text.as_str());
    Ending {
        status: if is_printed { 0 } else { 255 },
        is_printed,
        is_told: true,
    }
}

/// Says what there is to say after this answer of a run that these arguments asked for.
pub fn close_run<W: Write, E: Write>(
    alloc: Global,
    answer: Result<ExitStatus, LaunchFault>,
    words: &[String],
    subject: Subject<'_>,
    writer: &mut W,
    errors: &mut E,
) -> Ending
    ensures closed { Closes (sentence_by subject.entry) W.contents E.contents answer writer.old writer.new errors.old
        errors.new result }
    ensures silent { IfOk answer (λ _. errors.new ≡ errors.old) }
{
    let message = message_after(alloc, answer, words, subject);
    close(answer, message, writer, errors)
}

/// What arguments that were refused for this reason ask for in place of a run.
fn info_after(
    alloc: Global,
    fault: LaunchFault,
    words: &[String],
    subject: Subject<'_>,
) -> Result<Option<Info>, AllocError>
    ensures { IfOk result (λ info. AsksAfter fault (map string_bytes words.now) (option_map (λ i. i.request) info)) }
{
    match fault {
        LaunchFault::BadWords => info_asked(alloc, words, subject),
        _ => Ok(None),
    }
}

/// Ends where arguments were refused for this reason. Those that ask for help, or for the version, are told it, and for
/// all others the refusal is said; want of memory may stand in its place.
pub fn close_unread<W: Write, E: Write>(
    alloc: Global,
    fault: LaunchFault,
    words: &[String],
    subject: Subject<'_>,
    writer: &mut W,
    errors: &mut E,
) -> Ending
    ensures { EndsUnread (sentence_by subject.entry) W.contents E.contents (map string_bytes words.now) fault writer.old
        writer.new errors.old errors.new result }
{
    match info_after(alloc, fault, words, subject) {
        Ok(Some(info)) => tell_info(&info, writer),
        Ok(None) => close_run(alloc, Err(fault), words, subject, writer, errors),
        Err(AllocError) => close_run(
            alloc,
            Err(LaunchFault::NoMemory),
            words,
            subject,
            writer,
            errors,
        ),
    }
}

/// Says this text, if there is one, as far as the writer takes it.
fn say_said<E: Write>(said: Option<&str>, errors: &mut E)
    ensures { SaysText E.contents (maybe_behind said.entry) errors.old errors.new }
{
    if let Some(text) = said {
        let _ = print_to(errors, text.as_bytes());
    }
}

/// Says what is waited for, where a suite is to be typed: standard input is a terminal, and no file is named.
pub(crate) fn say_waiting<E: Write>(is_typed: bool, suite: Option<&str>, errors: &mut E)
    ensures { SaysText E.contents (waiting_said is_typed (maybe_behind suite.entry)) errors.old errors.new }
{
    let said = match suite {
        None if is_typed => Some(WAITING),
        _ => None,
    };
    say_said(said, errors);
}

/// What is said of a run with this status, if it passed steps over.
fn steps_said(status: ExitStatus) -> Option<&'static str>
    ensures { maybe_behind result ≡ steps_said status }
{
    match status {
        ExitStatus::StepsPassedOver { .. } => Some(STEPS_PASSED_OVER),
        _ => None,
    }
}

/// Says this text, if there is one, as far as the writer takes it.
fn say<E: Write>(text: Option<String>, errors: &mut E)
    ensures { SaysText E.contents (option_map string_bytes text) errors.old errors.new }
{
    if let Some(text) = text {
        let _ = print_to(errors, text.as_bytes());
    }
}

/// The line of a seed.
fn seed_text(alloc: Global, seed: u64) -> Result<String, AllocError>
    ensures { IfOk result (λ text. string_bytes text ≡ seed_line seed) }
{
    format!(in alloc; "Seed: {seed}\n")
}

/// Says the seed of a run, if it has one.
fn say_seed<E: Write>(alloc: Global, options: &Options, errors: &mut E)
    ensures { SaysSeed E.contents errors.old errors.new }
{
    if let Some(seed) = options.request.seed {
        say(seed_text(alloc, seed).ok(), errors);
    }
}

/// Whether more is said of a run, as what failed: it is behind a tree and behind a summary.
fn says_more(options: &Options) -> bool {
    options.replay.is_none() && matches!(options.details, Details::Tree | Details::Summary)
}

/// Whether this argument may set a key of the configuration.
fn may_set_key(word: &str) -> bool {
    match word.strip_prefix("--") {
        Some(name) => name.starts_with(CONFIG) || name.starts_with(SYSTEM),
        None => false,
    }
}

/// These arguments, if one of them may set a key of the configuration, and else none: of all others nothing is said.
fn words_with_keys(words: &[String]) -> &[String] {
    for word in words {
        if may_set_key(word.as_str()) {
            return words;
        }
    }
    &[]
}

/// Says what of these arguments, which asked for these options, and of this suite has another effect than
/// it seems to have, if something does.
fn say_hints_of<E: Write>(
    alloc: Global,
    options: &Options,
    words: &[String],
    suite: &[u8],
    errors: &mut E,
)
    ensures { SaysHints E.contents errors.old errors.new }
{
    // clap takes long to read them once more
    let Ok(given) = given_by(alloc, words_with_keys(words)) else {
        return;
    };
    if let Ok(hints) = hints_of(alloc, &given, options, suite) {
        if !hints.are_none() {
            say(hints_text(alloc, &hints).ok(), errors);
        }
    }
}

/// Says it of a suite's run, behind what people read; and behind all else too where the suite names no node.
fn say_hints<E: Write>(
    alloc: Global,
    options: &Options,
    words: &[String],
    subject: Subject<'_>,
    errors: &mut E,
)
    ensures { SaysHints E.contents errors.old errors.new }
{
    if let Subject::Suite(suite) = subject {
        if says_more(options) || names_no_node(suite) {
            say_hints_of(alloc, options, words, suite, errors);
        }
    }
}

/// Says what failed, where that is said, if something did.
fn say_failures<E: Write>(alloc: Global, options: &Options, failures: &Failures, errors: &mut E)
    ensures { SaysFailures E.contents errors.old errors.new }
{
    if says_more(options) && !failures.are_none() {
        say(failed_text(alloc, SELECT_UNIQUE_ID, failures).ok(), errors);
    }
}

/// Says of a run with this status its seed, what of these arguments, which asked for these options, and of this suite
/// has another effect than it seems to have, what failed, whether steps were passed over, and the slowest tests, if
/// there is a list of them.
fn say_of_run<E: Write>(
    alloc: Global,
    status: ExitStatus,
    options: &Options,
    words: &[String],
    subject: Subject<'_>,
    failures: &Failures,
    slowest: Option<String>,
    errors: &mut E,
)
    ensures { SaysAll E.contents (steps_said status) (option_map string_bytes slowest) errors.old errors.new }
{
    say_seed(alloc, options, &mut *errors);
    say_hints(alloc, options, words, subject, &mut *errors);
    say_failures(alloc, options, failures, &mut *errors);
    say_said(steps_said(status), &mut *errors);
    say(slowest, errors);
}

/// Says all that of a run that was not refused.
fn say_if_run<E: Write>(
    alloc: Global,
    answer: Result<ExitStatus, LaunchFault>,
    options: &Options,
    words: &[String],
    subject: Subject<'_>,
    failures: &Failures,
    slowest: Option<String>,
    errors: &mut E,
)
    ensures { SaysIfRun (λ status. SaysAll E.contents (steps_said status) (option_map string_bytes slowest)) answer
        errors.old errors.new }
{
    match answer {
        Ok(status) => say_of_run(
            alloc, status, options, words, subject, failures, slowest, errors,
        ),
        Err(_) => drop(slowest),
    }
}

/// Says what there is to say after this answer of a run that these arguments asked for, of its seed, of
/// what has another effect than it seems to have, of what failed, whether steps were passed over, and of the slowest tests,
/// if there is a list of them.
pub fn close_with_failures<W: Write, E: Write>(
    alloc: Global,
    answer: Result<ExitStatus, LaunchFault>,
    options: &Options,
    words: &[String],
    subject: Subject<'_>,
    failures: &Failures,
    slowest: Option<String>,
    writer: &mut W,
    errors: &mut E,
) -> Ending
    ensures { ClosesRun (sentence_by subject.entry) W.contents E.contents answer (option_map string_bytes slowest)
        writer.old writer.new errors.old errors.new result }
{
    let ending = close_run(alloc, answer, words, subject, writer, &mut *errors);
    say_if_run(
        alloc, answer, options, words, subject, failures, slowest, errors,
    );
    ending
}

/// Says what there is to say where the system gave no arguments, for this reason.
pub fn refuse<W: Write, E: Write>(
    alloc: Global,
    fault: LaunchFault,
    subject: Subject<'_>,
    writer: &mut W,
    errors: &mut E,
) -> Ending
    ensures { Closes (sentence_by subject.entry) W.contents E.contents (Err fault) writer.old writer.new errors.old
        errors.new result }
{
    let message = message_of(alloc, fault, &[], subject);
    close(Err(fault), Some(message), writer, errors)
}
