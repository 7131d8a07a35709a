//! How units are dealt out to shards.

/// By what a unit goes to its shard.
#[derive(Clone, Copy, Drop)]
pub enum Dealing {
    /// By its place among all units, so that shards differ by one unit at most.
    InTurn,
    /// By the hash of its unique id, so that a unit that is added moves no other.
    ByHash,
}
