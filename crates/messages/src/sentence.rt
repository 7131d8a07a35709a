//! The sentence that a refusal's message begins with.

ghost use Rattle.std.specs.Prelude.{◌≡◌};
ghost use Rattle.messages.specs.Sentences.{of_cut, of_params, of_selector, of_settings, of_suite, of_tags, of_tree};
ghost use Rattle.messages.specs.Sentences.{sentence_by, sentence_of, tests_sentence_of};

use crate::subject::Subject;
use config_params::{ParamsFault, SettingsFault};
use descriptor::TreeFault;
use launch_options::{CutCause, LaunchFault};
use selectors::SelectorFault;
use suite_text::SuiteFault;
use tag_expr::TagFault;

fn of_tree(fault: TreeFault) -> &'static str
    ensures { result.now ≡ of_tree fault }
{
    match fault {
        TreeFault::NoMemory => "there was not enough memory",
        TreeFault::TooMany => "the suite has too many nodes",
        TreeFault::TooDeep => "a node of the suite stands too deep",
        TreeFault::DoubleId => "two nodes of the suite have the same unique id",
        TreeFault::ParentIsTest => "a test of the suite holds another node",
        TreeFault::EngineLock => "an engine of the suite has a mode, a lock or isolation",
        TreeFault::BodyTwice => "two nodes of the suite have the same body",
        TreeFault::SpareOutsideFactory =>
            "a dynamic test of the suite stands outside a factory, or another node in one",
        TreeFault::OverLimit => "a line of the suite is over a limit",
        TreeFault::AfterMisplaced => "an after-body of the suite stands where there may be none",
    }
}

fn of_params(fault: ParamsFault) -> &'static str
    ensures { result.now ≡ of_params fault }
{
    match fault {
        ParamsFault::NoMemory => "there was not enough memory",
        ParamsFault::NoEquals(_) => "a property has no equals sign",
        ParamsFault::EmptyKey(_) => "a property has no key",
    }
}

fn of_suite(fault: SuiteFault) -> &'static str
    ensures { result.now ≡ of_suite fault }
{
    match fault {
        SuiteFault::NoMemory => "there was not enough memory",
        SuiteFault::BadLine(_) => "a line of the suite cannot be read",
        SuiteFault::BadIndent(_) => "a line of the suite is indented wrongly",
        SuiteFault::MissingVerdict(_) => "a line of the suite has no verdict",
        SuiteFault::TooLarge => "the suite is too large",
        SuiteFault::Refused { fault, .. } => of_tree(fault),
        SuiteFault::BadProperty(fault) => of_params(fault),
    }
}

fn of_tags(fault: TagFault) -> &'static str
    ensures { result.now ≡ of_tags fault }
{
    match fault {
        TagFault::NoMemory => "there was not enough memory",
        TagFault::Empty => "a tag expression is empty",
        TagFault::BadTag(_) => "a tag expression has a character that no tag has",
        TagFault::OperandMissing(_) => "a tag expression lacks a tag",
        TagFault::OperatorMissing(_) => "a tag expression lacks an operator",
        TagFault::ParenOpen(_) => "a parenthesis of a tag expression is never closed",
        TagFault::ParenClose(_) => "a parenthesis of a tag expression closes none",
        TagFault::TooDeep => "a tag expression is over a limit",
    }
}

fn of_settings(fault: SettingsFault) -> &'static str
    ensures { result.now ≡ of_settings fault }
{
    match fault {
        SettingsFault::BadStrategy => "the strategy of parallel execution is not known",
        SettingsFault::BadParallelism => "the number of workers is missing, or is none",
        SettingsFault::BadFactor => "the factor of workers for a processor is none",
        SettingsFault::BadSlow => "the milliseconds from which on a test is slow are none",
        SettingsFault::BadHolders => "the number of holders of a lock is none",
        SettingsFault::UnknownLock =>
            "a lock is limited that no node names, or that can have no limit",
    }
}

fn of_cut(cause: CutCause) -> &'static str
    ensures { result.now ≡ of_cut cause }
{
    match cause {
        CutCause::Writer => "standard output did not take all that was written",
        CutCause::Memory => "there was not enough memory to go on",
    }
}

fn of_selector(fault: SelectorFault) -> &'static str
    ensures { result.now ≡ of_selector fault }
{
    match fault {
        SelectorFault::NoMemory => "there was not enough memory",
        SelectorFault::BadSelector => "a selector cannot be read",
        SelectorFault::EmptyPattern => "a pattern of names is empty",
    }
}

/// The sentence that says which refusal of a suite this is.
fn sentence_of(fault: LaunchFault) -> &'static str
    ensures { result.now ≡ sentence_of fault }
{
    match fault {
        LaunchFault::NoMemory => "there was not enough memory",
        LaunchFault::Suite(fault) => of_suite(fault),
        LaunchFault::BadWords => "nothing was run",
        LaunchFault::BadStep(_) => "a word of the replay names no step",
        LaunchFault::BadSelector(refused) => of_selector(refused.fault),
        LaunchFault::BadTags(fault) => of_tags(fault),
        LaunchFault::BadPair(fault) => of_params(fault),
        LaunchFault::BadSettings(fault) => of_settings(fault),
        LaunchFault::NothingMatches(_) => "a selector matches nothing in the suite",
        LaunchFault::TooManyKeys => "the nodes that are to run declare too many keys of locks",
        LaunchFault::TooManyWorkers => "the configuration asks for too many workers",
        LaunchFault::NoWorker => "no thread could be started",
        LaunchFault::Reading => "the suite could not be read",
        LaunchFault::BadReport(_) => "the file of a report could not be opened",
        LaunchFault::CutReport(_) => "a report could not be written whole",
        LaunchFault::UnreadRun => "the saved run could not be read",
        LaunchFault::BadSavedLine(_) => "a line of the saved run is none of a feed",
        LaunchFault::UnreadWords(_) => "a file of words could not be read",
        LaunchFault::Writing(cut) => of_cut(cut.cause),
    }
}

/// The sentence that says which refusal of a program's own tests this is.
fn tests_sentence_of(fault: LaunchFault) -> &'static str
    ensures { result.now ≡ tests_sentence_of fault }
{
    match fault {
        LaunchFault::NothingMatches(_) => "a selector matches none of the tests",
        _ => sentence_of(fault),
    }
}

/// The sentence that says which refusal of what was to be run this is.
pub(crate) fn sentence_by(fault: LaunchFault, subject: Subject<'_>) -> &'static str
    ensures { result.now ≡ sentence_by subject.entry fault }
{
    match subject {
        Subject::Suite(_) => sentence_of(fault),
        Subject::Tests(_) => tests_sentence_of(fault),
    }
}
