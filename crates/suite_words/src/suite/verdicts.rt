//! The verdict of a line, and what it has the node's body end with.

ghost use Rattle.std.specs.Prelude.{◌≡◌, ◌≢◌, IfErr, Some, filter};
ghost use Rattle.std.specs.List.{Contains};
ghost use Rattle.suite_words.specs.Grammar.{verdicts, ends_body, verdict_text};
ghost use Rattle.suite_words.specs.Reading.Verdicts.{verdict_spelled, no_verdict, verdict_with, verdict_of};
ghost use Rattle.suite_words.specs.Reading.Verdicts.{status_declared};
ghost use Rattle.suite_words.specs.Reading.Faults.{Gives};
ghost use Rattle.suite_words.specs.declared.suite.verdicts.Verdict.{Verdict};

use crate::suite::fault::SuiteFault;
use crate::suite::words::Word;
use plan_events::Status;

const PASS: &str = "pass";

const FAIL: &str = "fail";

const ABORT: &str = "abort";

const DISABLED: &str = "disabled";

/// How a node's body ends, or that the node is disabled.
#[derive(Clone, Copy)]
pub enum Verdict {
    Pass,
    Fail,
    Abort,
    Disabled,
}

impl Verdict {
    /// All of them.
    pub fn all() -> [Verdict; 4]
        ensures exact { result ≡ verdicts }
        ensures every { (verdict : Verdict) → Contains result verdict }
    {
        [
            Verdict::Pass,
            Verdict::Fail,
            Verdict::Abort,
            Verdict::Disabled,
        ]
    }

    /// Those that a body ends with, as an after-body has to.
    pub fn of_bodies() -> [Verdict; 3]
        ensures { result ≡ filter ends_body verdicts }
    {
        [Verdict::Pass, Verdict::Fail, Verdict::Abort]
    }

    /// How the verdict is spelled.
    pub fn spelling(self) -> &'static str
        ensures text { result.now ≡ verdict_text self }
        ensures read { verdict_spelled result.now ≡ Some self }
    {
        match self {
            Verdict::Pass => PASS,
            Verdict::Fail => FAIL,
            Verdict::Abort => ABORT,
            Verdict::Disabled => DISABLED,
        }
    }

    /// The verdict with this spelling.
    pub fn spelled(text: &str) -> Option<Verdict>
        ensures { result ≡ verdict_spelled text.now }
    {
        match text {
            PASS => Some(Verdict::Pass),
            FAIL => Some(Verdict::Fail),
            ABORT => Some(Verdict::Abort),
            DISABLED => Some(Verdict::Disabled),
            _ => None,
        }
    }
}

/// The status that the node's body ends with; none where it has no body.
pub(crate) fn status_of(verdict: Option<Verdict>) -> Option<Status>
    ensures { result ≡ status_declared verdict }
{
    match verdict {
        Some(Verdict::Pass) => Some(Status::Successful),
        Some(Verdict::Fail) => Some(Status::Failed),
        Some(Verdict::Abort) => Some(Status::Aborted),
        Some(Verdict::Disabled) | None => None,
    }
}

/// Judges that a line ends without a verdict.
fn no_verdict(number: usize, word: Word) -> Result<Option<Verdict>, SuiteFault>
    ensures exact { Gives (λ verdict. verdict) result (no_verdict number word) }
    ensures real { IfErr result (λ fault. fault ≢ SuiteFault.NoMemory) }
{
    match word {
        Word::Engine | Word::Class => Ok(None),
        Word::Test | Word::Factory | Word::Dyn => Err(SuiteFault::MissingVerdict(number)),
    }
}

/// Judges a verdict that is followed by this text.
fn verdict_with(
    number: usize,
    word: Word,
    verdict: Option<Verdict>,
    text: &str,
) -> Result<Option<Verdict>, SuiteFault>
    ensures exact { Gives (λ verdict. verdict) result (verdict_with number word verdict text.now) }
    ensures real { IfErr result (λ fault. fault ≢ SuiteFault.NoMemory) }
{
    match (word, verdict) {
        (Word::Engine, _) | (_, None) => Err(SuiteFault::BadLine(number)),
        (_, Some(Verdict::Pass)) if !text.is_empty() => Err(SuiteFault::BadLine(number)),
        (_, Some(verdict)) => Ok(Some(verdict)),
    }
}

/// The verdict that a token, empty where it is missing, and the text after it are.
pub(crate) fn verdict_in(
    number: usize,
    word: Word,
    first: &str,
    text: &str,
) -> Result<Option<Verdict>, SuiteFault>
    ensures exact { Gives (λ verdict. verdict) result (verdict_of number word first.now text.now) }
    ensures real { IfErr result (λ fault. fault ≢ SuiteFault.NoMemory) }
{
    if first.is_empty() {
        no_verdict(number, word)
    } else {
        verdict_with(number, word, Verdict::spelled(first), text)
    }
}
