#![tactic(auto)]

//! The scheduling core: a state machine of workers and a dispatcher that publishes events.

mod answers;
mod children;
mod core_steps;
mod fault;
mod machine;
mod next;
mod rounds;
mod run;
mod schedule;
mod taking;
mod telling;
mod text;
mod trace;

pub use answers::Answers;
pub use core_steps::Core;
pub use fault::{CoreFault, NotEnabled};
pub use next::{Next, is_over, next_step};
pub use run::{drive, drive_with, run_steps};
pub use text::texts_of;
pub use trace::Trace;
