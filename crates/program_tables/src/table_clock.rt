//! The table's clock: no time moves it, so what a row prints is always the same.

use std::io;
use std::sync::atomic::{AtomicU64, Ordering};
use std::time::{Clock, Duration};

/// The moment at which each run of the table begins, in seconds since 1970: 05:04:59 on 28 November 2026.
const MOMENT: u64 = 1_795_842_299;

/// Reads the same at any moment; or the n-th reading moves it on by n milliseconds, so that of one worker's tests each
/// takes two milliseconds more than the one before it.
#[derive(Drop)]
pub(crate) struct TableClock {
    step: u64,
    readings: AtomicU64,
}

impl TableClock {
    /// One that stands still, so that what is drawn by the time is not drawn.
    pub(crate) fn still() -> TableClock {
        TableClock {
            step: 0,
            readings: AtomicU64::new(0),
        }
    }

    /// One that moves, if these arguments ask how long tests took.
    pub(crate) fn of(words: &[String]) -> TableClock {
        let mut clock = TableClock::still();
        if words.iter().any(|word| word.as_str() == "--times") {
            clock.step = 1;
        }
        clock
    }
}

impl Clock for TableClock {
    fn monotonic(&self) -> io::Result<Duration> {
        let before = self.readings.fetch_add(1, Ordering::SeqCst);
        let moved = before.saturating_mul(before.saturating_add(1)) / 2;
        Ok(Duration::from_millis(moved.saturating_mul(self.step)))
    }

    fn since_1970(&self) -> io::Result<Duration> {
        Ok(Duration::from_secs(MOMENT))
    }
}
