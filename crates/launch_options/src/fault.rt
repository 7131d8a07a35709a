//! The refusals of a launch, with their numbers and places.

ghost use Rattle.std.specs.Prelude.{◌≡◌};
ghost use Rattle.launch_options.specs.Faults.{number_of, place_of, IsPlanFault, IsSelectFault, IsStepsFault};
ghost use Rattle.launch_options.specs.Faults.{IsLimitsFault, IsSuiteFault, IsTagFault, cut_by_writer};
ghost use Rattle.launch_options.specs.declared.fault.LaunchFault.TheVariants.{NoMemory, BadSettings, Writing};

use config_params::{LimitsFault, ParamsFault, SettingsFault};
use resource_locks::PlanFault;
use run_results::WriteFault;
use selectors::{SelectFault, SelectorFault};
use std::alloc::{AllocError, AllocFailed};
use std::error::Error;
use std::fmt;
use step_text::StepsFault;
use suite_words::SuiteFault;
use tag_expr::TagFault;

/// Why a writer has the first bytes of an output alone.
#[derive(Clone, Copy, Debug, PartialEq, Eq)]
pub enum CutCause {
    /// The writer failed, or took nothing.
    Writer,
    /// There was no memory for the rest of a feed that was printed in part.
    Memory,
}

/// An output of which the writer took so many bytes, and not all.
#[derive(Clone, Copy, Debug, PartialEq, Eq)]
pub struct CutOutput {
    pub sent: usize,
    pub cause: CutCause,
}

/// A text that spells no selector: its number, from 1, and why.
#[derive(Clone, Copy, Debug, PartialEq, Eq)]
pub struct RefusedSelector {
    pub number: usize,
    pub fault: SelectorFault,
}

/// Why a launch was refused, or broke off. `{}` writes `error`, the number, and behind `at`
/// the place where there is one.
#[derive(Clone, Copy, Debug, PartialEq, Eq)]
pub enum LaunchFault {
    /// Refusal 0.
    NoMemory,
    /// Refusals 10 to 17 and 100 to 103, at the suite's line where it is about one.
    Suite(SuiteFault),
    /// Refusal 105: arguments that give no options.
    BadWords,
    /// Refusal 104: the token of this number, from 1, in the text of a replay names no step.
    BadStep(usize),
    /// Refusals 40 and 43, at the number of the selector that is none of its kind.
    BadSelector(RefusedSelector),
    /// Refusals 20 to 26, at a place in the tag expression.
    BadTags(TagFault),
    /// Refusals 30 and 31: the argument of this number, from 1, among those of `--config` and then of
    /// `--system`, says no pair.
    BadPair(ParamsFault),
    /// Refusals 32 to 37: what the configuration asks for is none.
    BadSettings(SettingsFault),
    /// Refusal 41: the selector or the included name of this number, from 1, covers nothing of the suite.
    NothingMatches(usize),
    /// Refusal 50: the nodes that are run declare more than 256 keys, the global one included.
    TooManyKeys,
    /// Refusal 61: the configuration asks for more than 64 workers.
    TooManyWorkers,
    /// Refusal 90: no thread could be started.
    NoWorker,
    /// Refusal 106: the reader failed.
    Reading,
    /// Refusal 107: the file of the report of this number, from 1, could not be opened.
    BadReport(usize),
    /// Refusal 82: the report of this number, from 1, could not be written whole. The run is over, and
    /// all that it prints was printed.
    CutReport(usize),
    /// Refusal 108: the file of a saved run could not be read.
    UnreadRun,
    /// Refusal 109: this line of a saved run, from 1, is no line of a feed, nor of its JSON.
    BadSavedLine(usize),
    /// Refusal 110: the file that the argument of this number names, from 1, of those that name files of
    /// arguments, could not be read, or is no list of arguments.
    UnreadWords(usize),
    /// Refusal 81, at the number of bytes that the writer took.
    Writing(CutOutput),
}

impl From<AllocError> for LaunchFault {
    ghost from_gives = { λ _ fault. fault ≡ NoMemory };

    fn from(_error: AllocError) -> LaunchFault {
        LaunchFault::NoMemory
    }
}

impl From<SuiteFault> for LaunchFault {
    ghost from_gives = { IsSuiteFault };

    fn from(fault: SuiteFault) -> LaunchFault {
        match fault {
            SuiteFault::NoMemory => LaunchFault::NoMemory,
            _ => LaunchFault::Suite(fault),
        }
    }
}

impl From<StepsFault> for LaunchFault {
    ghost from_gives = { IsStepsFault };

    fn from(fault: StepsFault) -> LaunchFault {
        match fault {
            StepsFault::NoMemory => LaunchFault::NoMemory,
            StepsFault::BadStep(number) => LaunchFault::BadStep(number),
        }
    }
}

impl From<TagFault> for LaunchFault {
    ghost from_gives = { IsTagFault };

    fn from(fault: TagFault) -> LaunchFault {
        match fault {
            TagFault::NoMemory => LaunchFault::NoMemory,
            _ => LaunchFault::BadTags(fault),
        }
    }
}

impl From<SelectFault> for LaunchFault {
    ghost from_gives = { IsSelectFault };

    fn from(fault: SelectFault) -> LaunchFault {
        match fault {
            SelectFault::NoMemory => LaunchFault::NoMemory,
            SelectFault::NothingMatches(number) => LaunchFault::NothingMatches(number),
        }
    }
}

impl From<SettingsFault> for LaunchFault {
    ghost from_gives = { λ cause fault. fault ≡ BadSettings cause };

    fn from(cause: SettingsFault) -> LaunchFault {
        LaunchFault::BadSettings(cause)
    }
}

impl From<LimitsFault> for LaunchFault {
    ghost from_gives = { IsLimitsFault };

    fn from(fault: LimitsFault) -> LaunchFault {
        match fault {
            LimitsFault::NoMemory => LaunchFault::NoMemory,
            LimitsFault::Refused(cause) => LaunchFault::BadSettings(cause),
        }
    }
}

impl From<PlanFault> for LaunchFault {
    ghost from_gives = { IsPlanFault };

    fn from(fault: PlanFault) -> LaunchFault {
        match fault {
            PlanFault::NoMemory => LaunchFault::NoMemory,
            PlanFault::TooManyKeys => LaunchFault::TooManyKeys,
        }
    }
}

impl<T: Drop> From<AllocFailed<T>> for LaunchFault {
    ghost from_gives = { λ _ fault. fault ≡ NoMemory };

    fn from(_error: AllocFailed<T>) -> LaunchFault {
        LaunchFault::NoMemory
    }
}

impl From<WriteFault> for LaunchFault {
    ghost from_gives = { λ cause fault. fault ≡ Writing (cut_by_writer cause.sent) };

    fn from(cause: WriteFault) -> LaunchFault {
        LaunchFault::Writing(CutOutput {
            sent: cause.sent,
            cause: CutCause::Writer,
        })
    }
}

impl fmt::Display for LaunchFault {
    ghost use Rattle.std.specs.Prelude.{Some};
    ghost use Rattle.launch_options.specs.Faults.{refusal_text};

    ghost output = { λ fault. Some (refusal_text fault) };

    fn fmt<W: fmt::Write>(&self, f: &mut fmt::Formatter<W>) -> fmt::Result {
        let number = self.number();
        match self.place() {
            Some(place) => write!(f, "error {number} at {place}"),
            None => write!(f, "error {number}"),
        }
    }
}

impl Error for LaunchFault {}

impl LaunchFault {
    /// The refusal's number: 0 for want of memory.
    pub fn number(&self) -> u8
        ensures { result ≡ number_of self.now }
    {
        match self {
            LaunchFault::NoMemory => 0,
            LaunchFault::Suite(fault) => fault.number(),
            LaunchFault::BadWords => 105,
            LaunchFault::BadStep(_) => 104,
            LaunchFault::BadSelector(refused) => refused.fault.number(),
            LaunchFault::BadTags(fault) => fault.number(),
            LaunchFault::BadPair(fault) => fault.number(),
            LaunchFault::BadSettings(fault) => fault.number(),
            LaunchFault::NothingMatches(_) => 41,
            LaunchFault::TooManyKeys => 50,
            LaunchFault::TooManyWorkers => 61,
            LaunchFault::NoWorker => 90,
            LaunchFault::Reading => 106,
            LaunchFault::BadReport(_) => 107,
            LaunchFault::CutReport(_) => 82,
            LaunchFault::UnreadRun => 108,
            LaunchFault::BadSavedLine(_) => 109,
            LaunchFault::UnreadWords(_) => 110,
            LaunchFault::Writing(_) => 81,
        }
    }

    /// The line of the suite or of a saved run, or the number of the step, the selector, the pair, the
    /// report or the argument, from 1, or the place in the tag expression, or how many bytes went out.
    pub fn place(&self) -> Option<u64>
        ensures { result ≡ place_of self.now }
    {
        match self {
            LaunchFault::Suite(fault) => fault.place(),
            LaunchFault::BadStep(number)
            | LaunchFault::NothingMatches(number)
            | LaunchFault::BadReport(number)
            | LaunchFault::CutReport(number)
            | LaunchFault::BadSavedLine(number)
            | LaunchFault::UnreadWords(number) => Some(*number as u64),
            LaunchFault::BadSelector(refused) => Some(refused.number as u64),
            LaunchFault::BadTags(fault) => fault.place().map(|place| place as u64),
            LaunchFault::BadPair(fault) => fault.place(),
            LaunchFault::Writing(cut) => Some(cut.sent as u64),
            _ => None,
        }
    }
}
