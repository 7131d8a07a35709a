//! What is to be executed, and what each node holds while it is.
#![tactic(auto)]

mod fault;
mod hoisting;
mod keys;
mod limits;
mod lock_names;
mod lock_set;
mod plan;

pub use fault::PlanFault;
pub use limits::KeyLimit;
pub use lock_names::{GLOBAL, LockNames};
pub use lock_set::LockSet;
pub use plan::{Plan, hoist};
