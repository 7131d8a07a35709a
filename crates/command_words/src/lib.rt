//! The arguments of the command line: the options as clap is told of them, what the arguments ask for, and what is said
//! of arguments that are refused.
#![tactic(auto)]

mod again;
mod foreign_options;
mod found;
mod info;
mod launch;
mod message;
mod option_names;
mod rerun;
mod rerun_role;
mod system_words;
mod unexpected;
mod words;

pub use again::all_words;
pub use info::{Info, InfoRequest, info_asked};
pub use launch::Launch;
pub use message::message_of;
pub use rerun::rerun_words;
pub use system_words::given_words;
pub use words::{given_by, read_launch, read_options};
