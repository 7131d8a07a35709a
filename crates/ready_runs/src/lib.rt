//! What is to be run: a suite that is read, or a program, with its settings and its plan; or why it is refused.
#![tactic(auto)]

mod bytes;
mod plan;
mod program;
mod reading;
mod ready;
mod scripted;
mod settings;
mod slow_limits;

pub use bytes::{ReadFault, read_front};
pub use program::{PlannedProgram, planned_program};
pub use reading::{most_read, read_suite};
pub use ready::{ReadyRun, ready_run};
pub use scripted::{ScriptedJob, scripted_jobs};
pub use slow_limits::{set_default_limits, set_limits, set_script_limits};
