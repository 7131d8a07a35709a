#![tactic(auto)]

//! Lists of steps that lead to a history: one is found from the history alone, and there is one of what threads report.

mod after;
mod before;
mod cancelling;
mod facts;
mod order;
mod same;
mod schedule;
mod search;
mod silent;

pub use schedule::schedule_of;
