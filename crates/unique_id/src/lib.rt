//! Unique ids: where a node stands in the tree, and the canonical text of that.
#![tactic(auto)]

mod both_of;
mod canonical_text;
mod decoded;
mod escape;
mod fault;
mod part;
mod path;
mod read;
mod reading;
mod spelling;
mod text;
mod unique_id;

pub use both_of::both;
pub use fault::UidFault;
pub use text::Text;
pub use unique_id::{Segment, UniqueId};
