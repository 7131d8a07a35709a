//! What a saved run tells: a feed, or the JSON of a run, read back, and what of it is to be run again.
#![tactic(auto)]

mod again;
mod fault;
mod feed_line;
mod json_line;
mod lines;
mod reading_back;
mod related;
mod saved_run;
mod told;
mod uids;

pub use again::Again;
pub use fault::SavedFault;
pub use reading_back::read_back;
pub use saved_run::SavedRun;
pub use told::{Told, What};
pub use uids::has_uids;
