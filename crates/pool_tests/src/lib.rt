//! What no clause says of runs on threads: that bodies run side by side, when their jobs are run and events are told, and
//! that numbers come out of lanes. behaviour_tests has the names answered, each by the function that it names.
#![tactic(auto)]

mod behaviours;
mod boxed;
mod hosts;
mod lanes;
mod meeting;
mod moments;
mod ring;
mod rows;
mod running;
mod sharing;
mod stepping;
mod watching;

pub use behaviours::holds_of_run;
pub use running::push_events;
