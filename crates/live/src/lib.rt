//! What is told of a run while it goes on: its feed, line by line, and on a terminal how far it has come, and what failed.
#![tactic(auto)]

mod failed_lines;
mod failure;
mod failures;
mod feed_lines;
mod handing;
mod line_form;
mod live_feed;
mod progress;
mod running;
mod shown;
mod slow_lines;
mod slow_tests;
mod slowest;
mod test_counts;

pub use failed_lines::failed_text;
pub use failure::{Failure, Naming};
pub use failures::Failures;
pub use line_form::LineForm;
pub use live_feed::{LiveFeed, Outlet};
pub use progress::Progress;
pub use running::{Longest, Running, RunningTest};
pub use slow_lines::SlowLines;
pub use slow_tests::{LimitedTest, SlowTests};
pub use slowest::slowest_text;
pub use test_counts::{TestCounts, progress_line};
