//! What a refusal says on standard error: what is wrong, where, and what would be right. Each
//! message is a function of the refusal and of what was given: the values of the options and the
//! bytes of the suite, or what there is to say of a program's own tests.
#![tactic(auto)]

mod finding;
mod foreign_forms;
mod hint;
mod hint_lines;
mod keys;
mod message;
mod options;
mod sentence;
mod settings;
mod subject;
mod values;

pub use finding::{hints_of, names_no_node};
pub use hint::{Cause, Hint, Hints, Place};
pub use hint_lines::hints_text;
pub use keys::{cause_of_key, is_read};
pub use message::{Message, message_of};
pub use settings::said_of_settings;
pub use subject::Subject;
