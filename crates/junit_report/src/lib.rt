//! What a run tells in JUnit's XML, and what is expected to be told and printed of a run.
#![tactic(auto)]

mod case_times;
mod cases;
mod class_names;
mod expected;
mod junit;
mod junit_case;
mod told;
mod xml_strings;

pub use expected::printed_as_expected;
pub use junit::{junit_text, timed_junit_text};
