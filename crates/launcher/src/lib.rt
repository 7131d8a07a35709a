//! A launch: the run of a suite or of a program's jobs, or the replay of steps, what is printed, and the exit status.
//! What is asked for, and each refusal, stand in `launch_options`.
#![tactic(auto)]

mod driven;
mod feeds;
mod filed_launch;
mod launched;
mod listed;
mod program;
mod program_launch;
mod run;
mod run_reports;
mod source;
mod suite_launch;
mod timed_place;
mod timed_run;

pub use filed_launch::launch_filed;
pub use launch_options::{
    Details, Given, LaunchFault, Options, key_judged, option_names, processors_named, ring_named,
    strategy_names, theme_names, theme_of,
};
pub use launched::{Launched, launch_to};
pub use program::Program;
pub use program_launch::launch_program;
pub use ready_runs::{ReadFault, ScriptedJob, most_read, read_front, read_suite};
pub use run::launch;
pub use run_outputs::{AfterRun, ExitStatus};
pub use source::{LaunchSource, launch_source};
pub use suite_launch::{launch_suite, launch_text, run_options};
pub use timed_place::{TimedPlace, bare_places};
pub use timed_run::run_timed;
