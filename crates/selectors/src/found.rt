//! What discovery finds.

use descriptor::Tree;

/// What discovery finds.
#[derive(Drop)]
pub struct Found {
    /// The tree of what is selected, or the shard of it that the request asks for.
    pub tree: Tree,
    /// Whether nothing at all is selected, whatever shard is asked for.
    pub is_nothing: bool,
}
