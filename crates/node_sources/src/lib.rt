//! By what a worker comes to a node that is ready, and how it rests where there is none.
#![tactic(auto)]

mod busy;
mod circle;
mod idle;
mod parkers;
mod sources;

pub use circle::Circle;
pub use idle::{FEW_WORKERS, IdleRounds};
pub use parkers::Parkers;
pub use sources::{Sources, sources_for};
