//! Why parameters give no settings.

ghost use Rattle.std.specs.Prelude.{◌≡◌};
ghost use Rattle.config_params.specs.SettingsFaults.{number};

use thiserror::Error;

/// Why parameters give no settings.
#[derive(Clone, Copy, PartialEq, Eq, Debug, Error)]
pub enum SettingsFault {
    /// No strategy has this name (refusal 34).
    #[error("an unknown strategy")]
    BadStrategy,
    /// The number of workers is missing or unreadable (refusal 32).
    #[error("no number of workers for the fixed strategy")]
    BadParallelism,
    /// The factor is unreadable (refusal 33).
    #[error("an unreadable factor of the dynamic strategy")]
    BadFactor,
    /// The milliseconds from which on a test is slow are none (refusal 37).
    #[error("unreadable milliseconds of slow tests")]
    BadSlow,
    /// How many nodes may hold a lock at once is no number from 1 to 64 (refusal 35).
    #[error("an unreadable number of holders of a lock")]
    BadHolders,
    /// A lock is limited that no node names, or that can have no limit (refusal 36).
    #[error("a limit of a lock that no node names")]
    UnknownLock,
}

impl SettingsFault {
    /// The refusal's number.
    pub fn number(self) -> u8
        ensures { result ≡ number self }
    {
        match self {
            SettingsFault::BadStrategy => 34,
            SettingsFault::BadParallelism => 32,
            SettingsFault::BadFactor => 33,
            SettingsFault::BadSlow => 37,
            SettingsFault::BadHolders => 35,
            SettingsFault::UnknownLock => 36,
        }
    }
}
