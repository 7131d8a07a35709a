//! Why a text is no suite.

ghost use Rattle.std.specs.Prelude.{◌≡◌};
ghost use Rattle.suite_words.specs.Reading.Faults.{at_line, of_property, number_of, place_of};
ghost use Rattle.suite_words.specs.declared.suite.fault.SuiteFault.TheVariants.{NoMemory};

use config_params::ParamsFault;
use descriptor::TreeFault;
use std::alloc::AllocError;
use std::error::Error;
use std::fmt;

/// Why a text is no suite. Lines are counted from 1.
#[derive(Clone, Copy, PartialEq, Eq, Debug)]
pub enum SuiteFault {
    NoMemory,
    BadLine(usize),
    BadIndent(usize),
    MissingVerdict(usize),
    TooLarge,
    Refused { fault: TreeFault, line: usize },
    /// A property's line, which the fault counts.
    BadProperty(ParamsFault),
}

/// Writes what is wrong with a line.
fn write_line<W: fmt::Write>(f: &mut fmt::Formatter<W>, line: usize, what: &str) -> fmt::Result {
    write!(f, "line {line}: {what}")
}

impl fmt::Display for SuiteFault {
    fn fmt<W: fmt::Write>(&self, f: &mut fmt::Formatter<W>) -> fmt::Result {
        match self {
            SuiteFault::NoMemory => f.write_str("no memory"),
            SuiteFault::BadLine(line) => write_line(f, *line, "a word that may not stand there"),
            SuiteFault::BadIndent(line) => {
                write_line(f, *line, "an indentation that no line above can take")
            }
            SuiteFault::MissingVerdict(line) => write_line(f, *line, "no verdict"),
            SuiteFault::TooLarge => f.write_str("more bytes than a suite may have"),
            SuiteFault::Refused { fault, line } => write!(f, "line {line}: {fault}"),
            SuiteFault::BadProperty(fault) => write!(f, "{fault}"),
        }
    }
}

impl Error for SuiteFault {}

impl From<AllocError> for SuiteFault {
    ghost from_gives = { λ _ e. e ≡ NoMemory };

    fn from(_error: AllocError) -> SuiteFault {
        SuiteFault::NoMemory
    }
}

impl SuiteFault {
    /// What a node's refusal is at a line.
    pub fn at_line(line: usize, fault: TreeFault) -> SuiteFault
        ensures { result ≡ at_line line fault }
    {
        match fault {
            TreeFault::NoMemory => SuiteFault::NoMemory,
            fault => SuiteFault::Refused { fault, line },
        }
    }

    /// What a property's refusal is.
    pub fn of_property(fault: ParamsFault) -> SuiteFault
        ensures { result ≡ of_property fault }
    {
        match fault {
            ParamsFault::NoMemory => SuiteFault::NoMemory,
            fault => SuiteFault::BadProperty(fault),
        }
    }

    /// The refusal's number.
    pub fn number(&self) -> u8
        ensures { result ≡ number_of self.now }
    {
        match self {
            SuiteFault::NoMemory => 0,
            SuiteFault::BadLine(_) => 100,
            SuiteFault::BadIndent(_) => 101,
            SuiteFault::MissingVerdict(_) => 102,
            SuiteFault::TooLarge => 103,
            SuiteFault::Refused { fault, .. } => fault.number(),
            SuiteFault::BadProperty(fault) => fault.number(),
        }
    }

    /// The line that the refusal is about, where it is about one.
    pub fn place(&self) -> Option<u64>
        ensures { result ≡ place_of self.now }
    {
        match self {
            SuiteFault::NoMemory | SuiteFault::TooLarge => None,
            SuiteFault::BadLine(line)
            | SuiteFault::BadIndent(line)
            | SuiteFault::MissingVerdict(line)
            | SuiteFault::Refused { line, .. } => Some(*line as u64),
            SuiteFault::BadProperty(fault) => fault.place(),
        }
    }
}
