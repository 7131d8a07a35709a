//! How a node ended.

ghost use Rattle.std.specs.Prelude.{◌≡◌};

use std::fmt;

/// How a node ended. `{}` writes SUCCESSFUL, ABORTED or FAILED.
#[derive(Clone, Copy, PartialEq, Eq, Debug)]
pub enum Status {
    Successful,
    Aborted,
    Failed,
}

impl Status {
    ghost use Rattle.plan_events.specs.Statuses.{is_successful, is_aborted, is_failed};

    pub fn is_successful(self) -> bool
        ensures { result ≡ is_successful self }
    {
        matches!(self, Status::Successful)
    }

    pub fn is_aborted(self) -> bool
        ensures { result ≡ is_aborted self }
    {
        matches!(self, Status::Aborted)
    }

    pub fn is_failed(self) -> bool
        ensures { result ≡ is_failed self }
    {
        matches!(self, Status::Failed)
    }
}

impl fmt::Display for Status {
    ghost use Rattle.std.specs.Prelude.{Some};
    ghost use Rattle.plan_events.specs.Statuses.{status_text};

    ghost output = { λ s. Some (status_text s) };

    fn fmt<W: fmt::Write>(&self, f: &mut fmt::Formatter<W>) -> fmt::Result {
        match self {
            Status::Successful => write!(f, "SUCCESSFUL"),
            Status::Aborted => write!(f, "ABORTED"),
            Status::Failed => write!(f, "FAILED"),
        }
    }
}
