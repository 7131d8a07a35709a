//! Selection: which tests of a tree a request asks for, and the tree of those.

#![tactic(auto)]

mod class_names;
mod covered;
mod dealing;
mod discovery;
mod filter;
mod found;
mod id_hash;
mod kept;
mod name_end;
mod names;
mod pattern;
mod refusal;
mod request;
mod select_fault;
mod selector;
mod selector_fault;
mod shard;
mod shard_tree;
mod taken;

pub use dealing::Dealing;
pub use discovery::discover;
pub use found::Found;
pub use request::Request;
pub use select_fault::SelectFault;
pub use selector::{Selector, SelectorKind};
pub use selector_fault::SelectorFault;
pub use shard::{MOST_SHARDS, Shard};
pub use shard_tree::shard_of;
