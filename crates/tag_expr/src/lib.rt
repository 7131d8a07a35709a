//! Tags, sets of tags, and expressions that tell which sets they match.
#![tactic(auto)]

mod characters;
mod connective;
mod expression;
mod fault;
mod node;
mod parser;
mod tag;
mod tag_set;
mod tag_table;
mod token;

pub use expression::TagExpr;
pub use fault::TagFault;
pub use tag::{Tag, tag_of};
pub use tag_set::TagSet;
