//! The steps of a replay, as a text says them.

#![tactic(auto)]

mod step_names;
mod step_words;
mod steps;
mod writing;

pub use step_names::step_forms;
pub use steps::{StepsFault, parse_steps};
pub use writing::{are_namable, push_steps};
