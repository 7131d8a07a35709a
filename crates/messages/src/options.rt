//! The names of the options that have selectors or pairs, and what a selector looks like.

use launch_options::option_names::{
    CONFIG, EXCLUDE_CLASS, EXCLUDE_METHOD, EXCLUDE_NAME, EXCLUDE_PACKAGE, EXCLUDE_UNIQUE_ID,
    INCLUDE_NAME, SELECT_CLASS, SELECT_METHOD, SELECT_PACKAGE, SELECT_UNIQUE_ID, SYSTEM,
};
use selectors::SelectorKind;

/// The option that selects what is of this kind.
pub(crate) fn option_of(kind: SelectorKind) -> &'static str {
    match kind {
        SelectorKind::UniqueId => SELECT_UNIQUE_ID,
        SelectorKind::Class => SELECT_CLASS,
        SelectorKind::Method => SELECT_METHOD,
        SelectorKind::Package => SELECT_PACKAGE,
        SelectorKind::Name => INCLUDE_NAME,
    }
}

/// The option that leaves out what is of this kind.
pub(crate) fn exclusion_of(kind: SelectorKind) -> &'static str {
    match kind {
        SelectorKind::UniqueId => EXCLUDE_UNIQUE_ID,
        SelectorKind::Class => EXCLUDE_CLASS,
        SelectorKind::Method => EXCLUDE_METHOD,
        SelectorKind::Package => EXCLUDE_PACKAGE,
        SelectorKind::Name => EXCLUDE_NAME,
    }
}

/// What a selector of this kind looks like.
pub(crate) fn form_of(kind: SelectorKind) -> &'static str {
    match kind {
        SelectorKind::UniqueId => "a unique id, as in [engine:e]/[class:a.B]/[method:t()]",
        SelectorKind::Class => "the name of a class, which is not empty, as in a.B or a.B$Inner",
        SelectorKind::Method => "CLASS#METHOD, of which neither is empty, as in a.B#t()",
        SelectorKind::Package => "the name of a package, which is not empty, as in a.b",
        SelectorKind::Name => "a pattern of CLASS#METHOD, which is not empty, as in *#order*",
    }
}

/// What one of the two tables of properties calls the argument of this number, which counts on behind the first.
pub(crate) fn pair_option(number: usize, config: usize) -> &'static str {
    if number <= config { CONFIG } else { SYSTEM }
}
