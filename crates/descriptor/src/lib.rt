//! Trees of tests: their nodes, and how a tree is built.

#![tactic(auto)]

mod body_id;
mod body_marks;
mod builder;
mod fault;
mod hash;
mod kind;
mod lock;
mod lock_mode;
mod locks;
mod marks;
mod mode;
mod node;
mod node_id;
mod node_limit;
mod role;
mod tree;

pub use body_id::BodyId;
pub use builder::TreeBuilder;
pub use fault::TreeFault;
pub use kind::Kind;
pub use lock::Lock;
pub use lock_mode::LockMode;
pub use locks::Locks;
pub use marks::Marks;
pub use mode::Mode;
pub use node::Node;
pub use node_id::NodeId;
pub use node_limit::{MOST_NODES, NodeLimit};
pub use role::Role;
pub use tree::Tree;
