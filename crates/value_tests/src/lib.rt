//! What no row of a table can say of values: writers that fail, a listener of one's own, values that no
//! text spells, and copies. behaviour_tests has the names answered, each by the function that it names.
#![tactic(auto)]

mod audiences;
mod behaviours;
mod copies;
mod cores;
mod failing;
mod faults;
mod plans;
mod printing;
mod progress_lines;
mod slow_names;
mod summaries;
mod texts;

pub use behaviours::holds_of_value;
pub use failing::{Failing, Full};
