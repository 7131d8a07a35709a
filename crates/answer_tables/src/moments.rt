//! Questions about moments: what a clock shows that stands still, or cannot be read.

use crate::words::say;
use job_times::moment_by;
use std::alloc::Global;
use std::io;
use std::time::{Clock, Duration};

/// A clock that always shows so many milliseconds since 1970 began, or that cannot be read.
#[derive(Clone, Copy)]
struct StillClock {
    shown: Option<u64>,
}

impl Clock for StillClock {
    fn monotonic(&self) -> io::Result<Duration> {
        self.since_1970()
    }

    fn since_1970(&self) -> io::Result<Duration> {
        match self.shown {
            Some(milliseconds) => Ok(Duration::from_millis(milliseconds)),
            None => Err(io::Error::from(io::ErrorKind::Other)),
        }
    }
}

/// Adds the date and the time of day that a clock shows so many milliseconds after 1970 began; a text that is no number
/// stands for a clock that cannot be read.
pub(crate) fn push_moment(alloc: Global, answer: &mut String, text: &str) {
    let clock = StillClock {
        shown: text.parse().ok(),
    };
    match moment_by(alloc, &clock) {
        Some(moment) => {
            say(answer, " => ");
            say(answer, moment.as_str());
            drop(moment)
        }
        None => say(answer, " => none"),
    }
}
