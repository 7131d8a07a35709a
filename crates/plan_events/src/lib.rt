//! What a run tells: events and their words, what bodies do and how they end, and the texts of nodes.
#![tactic(auto)]

mod event;
mod job;
mod note;
mod outcome;
mod status;
mod texts;
mod word;
mod workers;

pub use event::{Event, EventKind};
pub use job::{Job, Pull};
pub use note::Note;
pub use outcome::{Outcome, Reply};
pub use status::Status;
pub use texts::Texts;
pub use workers::{CountFault, MOST_WORKERS, worker_count};
