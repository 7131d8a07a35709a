//! What stands in a running table: its words, and jobs and notes in its slots, as plain lists.
#![tactic(auto)]

mod fault;
mod jobs;
mod marks;
mod memory;
mod remains;
mod start;
mod words;

pub use fault::{NotEnabled, TableFault};
pub use jobs::{Jobs, emptied, fill, job_number, least_bare};
pub use marks::SeatMarks;
pub use memory::RunMemory;
pub use remains::{Closed, Notes, taken_out};
pub use start::GAP;
pub use words::{
    PLACE_UNIT, claimer_from_word, is_near, lock_from_word, lock_to_word, outstanding_from_word,
    place_to_word, result_from_word, status_from_word, status_to_word, taken_word,
};
