//! What a line of a suite says: its tokens, its attributes, its end, and the node that it declares.

#![tactic(auto)]

mod limits;
mod number;
mod script;
mod suite;

pub use limits::{LONGEST_SUITE, byte_limit, node_limit};
pub use number::{is_number, number_up_to};
pub use script::Script;
pub use suite::{
    Attribute, Attributes, Declared, LONGEST_LIMIT, LONGEST_SPIN, LineWord, MOST_PULLS, NamedLocks,
    Pending, SuiteFault, Verdict, Word, after_in, all_settled, declared_as, indentation,
    is_property, key_and_mode, key_and_value, level_at, lines_below, lines_in, next_word, placed,
    put_property, says_nothing, without_mark,
};
