//! A command line over any reader and writers: what its arguments ask for is launched, and what there is to say of it is
//! said.
#![tactic(auto)]

mod closing;
mod command;
mod console;
mod drawn_on;
mod kept;
mod meanwhile;
mod own_tests;
mod times;

pub use closing::{Ending, close_run, close_with_failures};
pub use command::{run_main, run_words};
pub use console::run_console;
pub use drawn_on::is_drawn_on;
pub use meanwhile::launch_told;
