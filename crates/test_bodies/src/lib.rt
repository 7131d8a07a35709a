//! Bodies of tests that are functions and closures of a program's own, of which nobody knows beforehand how they end.
#![tactic(auto)]

mod body;
mod code;
mod stop;

pub use body::Body;
pub use code::{TestBox, TestFn};
pub use stop::{Checked, Stop, assume, check, check_same};
