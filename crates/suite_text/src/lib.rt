//! The suite that is run, as a text says it.

#![tactic(auto)]

mod suite;

pub use suite::Suite;
pub use suite_words::{
    Attribute, LONGEST_LIMIT, LONGEST_SPIN, LONGEST_SUITE, LineWord, MOST_PULLS, Script,
    SuiteFault, Verdict, Word, byte_limit, is_number, key_and_mode, key_and_value, number_up_to,
    without_mark,
};
