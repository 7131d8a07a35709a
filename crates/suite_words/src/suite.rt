//! The lines of a suite, each by itself.

mod after;
mod attributes;
mod fault;
mod line_word;
mod lines;
mod locks;
mod order_mark;
mod properties;
mod pulls;
mod slow;
mod spins;
mod verdicts;
mod words;

pub use after::after_in;
pub use attributes::{Attribute, Attributes, LONGEST_SPIN, MOST_PULLS};
pub use fault::SuiteFault;
pub use line_word::LineWord;
pub use lines::{indentation, level_at, lines_in, next_word, says_nothing};
pub use locks::{NamedLocks, key_and_mode};
pub use order_mark::without_mark;
pub use properties::{is_property, put_property};
pub use pulls::{Pending, all_settled, lines_below};
pub use slow::LONGEST_LIMIT;
pub use spins::key_and_value;
pub use verdicts::Verdict;
pub use words::{Declared, Word, declared_as, placed};
