//! What is said of a suite or of a lock's limit that is refused, and the known word that is nearest to another.
#![tactic(auto)]

mod attributes;
mod bytes;
mod foreign;
mod foreign_words;
mod forms;
mod limits;
mod line;
mod lines;
mod marked;
mod near_names;
mod nearest;
mod place;
mod plain_lines;
mod sizes;
mod suite;
mod whole_name;

pub use bytes::text_of;
pub use foreign::{ForeignWords, meant_by};
pub use limits::push_limit;
pub use line::{cut, without_front};
pub use marked::{push_marked, push_shown};
pub use near_names::push_nearest_name;
pub use nearest::{nearest_known, push_nearest};
pub use plain_lines::printable;
pub use suite::push_suite;
