//! What is printed of a run, while it goes on and after it, of a replay and of what is only listed; and the exit status.
#![tactic(auto)]

mod after_run;
mod asked_times;
mod exit_status;
mod missing;
mod output;
mod replay;
mod schedule_line;
mod told_replies;
mod warning_lines;
mod watched_feed;

pub use after_run::AfterRun;
pub use asked_times::head_of_run;
pub use exit_status::ExitStatus;
pub use missing::{answer_unless, is_missing};
pub use output::{Output, listing, planned, replay_report, told_report};
pub use warning_lines::beginning;
pub use watched_feed::{NotesTimes, WatchedFeed, show};
