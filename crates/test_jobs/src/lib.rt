//! Jobs that end as they are told, or by what they see of others: tests hand them in, and the
//! driver that refuses memory.
#![tactic(auto)]

mod acting;
mod board;
mod casting;
mod counted;

pub use acting::{Act, Actor, sees_begin};
pub use board::Board;
pub use casting::{actor, cast, no_jobs};
pub use counted::Counted;
