//! What a run tells in forms that other programs read: JSON lines, and the nodes and the list of what would be run.
#![tactic(auto)]

mod json_lines;
mod json_strings;
mod list;
mod nodes;
mod plan_nodes;
mod times;

pub use json_lines::{json_text, push_event, push_note, timed_json_text};
pub use list::list_text;
pub use nodes::{id_of, kind_of, name_of, role_of, text_of};
pub use plan_nodes::plan_text;
pub use times::{push_seconds, time_or_none};
