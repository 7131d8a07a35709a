//! The arguments that a program is given, and those that they stand for: arguments of files, and what the system tells;
//! and what tells both of a system: its files and its facts.
#![tactic(auto)]

mod expanding;
mod facts;
mod files;
mod place;
mod reading;
mod role;
mod system_facts;
mod system_texts;

pub use expanding::{expanded_words, file_named};
pub use facts::Facts;
pub use files::TextFiles;
pub use reading::words_in;
pub use system_facts::SystemFacts;
pub use system_texts::SystemTexts;
