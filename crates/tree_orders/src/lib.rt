//! The order of a tree's nodes by a seed, and the tree of the nodes in that order.

#![tactic(auto)]

mod building;
mod order;
mod parent;
mod place;
mod seeded;
mod words;

pub use seeded::ordered_by_seed;
