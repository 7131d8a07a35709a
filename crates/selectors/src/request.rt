//! What a request asks for.

use crate::selector::Selector;
use crate::shard::Shard;
use tag_expr::TagExpr;

/// What a request asks for: tests and factories that one of the selectors covers, or all where there
/// is none, that are asked for by their names, are among those to be run again and not left out, and
/// that the tag filter keeps. The spares come with their factory.
pub struct Request {
    /// What to cover.
    pub selectors: Vec<Selector>,
    /// Of which one has to cover it too, where there is one.
    pub names: Vec<Selector>,
    /// Of which one has to cover it too, where there is one; one that covers nothing is no refusal.
    pub rerun: Vec<Selector>,
    /// Of which none may cover it.
    pub exclusions: Vec<Selector>,
    /// Of which one has to be true of the tags, where there is one.
    pub include: Vec<TagExpr>,
    /// Of which none may be true of the tags.
    pub exclude: Vec<TagExpr>,
    /// Which shard of all that to take; where there is none, all of it.
    pub shard: Option<Shard>,
    /// In whose order the children of each container are put that is no factory; where there is none,
    /// they stay in the tree's.
    pub seed: Option<u64>,
}

impl Drop for Request {
    fn drop(self) {
        let Request {
            selectors: _,
            names: _,
            rerun: _,
            exclusions: _,
            include: _,
            exclude: _,
            shard: _,
            seed: _,
        } = self;
    }
}
