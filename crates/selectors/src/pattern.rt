//! Patterns of names: both are read from their ends.

ghost use Rattle.std.specs.Prelude.{◌≡◌, reverse};
ghost use Rattle.descriptor.specs.Nodes.{IsTree};
ghost use Rattle.selectors.specs.NameEnds.{left_of, IsInName, IsPiece};
ghost use Rattle.selectors.specs.Patterns.{fits, some_end};

use crate::name_end::{NameEnd, last_byte};
use descriptor::Tree;

/// What a pattern and a name come to that are read as far as to the pattern's next star.
pub(crate) enum Piece<'a> {
    /// There is none, or they differ before it: whether the pattern matches.
    Ends(bool),
    /// What is left of both at the star.
    Star(&'a [u8], NameEnd<'a>),
}

/// Reads both as far as to the next star of the pattern.
fn to_star<'a>(tree: &'a Tree, pattern: &'a [u8], name: NameEnd<'a>) -> Piece<'a>
    requires tree { IsTree tree.now }
    requires named { IsInName tree.now name.number }
    ensures { IsPiece tree.now pattern.now name.entry result }
{
    let mut pattern = pattern;
    let mut name = name;
    while let Some((byte, more)) = pattern.split_last() {
        if *byte == b'*' {
            return Piece::Star(more, name);
        }
        match last_byte(tree, name) {
            Some((other, rest)) => {
                if other != *byte {
                    return Piece::Ends(false);
                }
                pattern = more;
                name = rest;
            }
            None => return Piece::Ends(false),
        }
    }
    Piece::Ends(last_byte(tree, name).is_none())
}

/// Whether the pattern matches some beginning of what is left of the name. Each piece of it is put
/// as near to the end as it may stand: whatever matches before another place matches before this.
fn matches_beginning<'a>(tree: &'a Tree, pattern: &'a [u8], name: NameEnd<'a>) -> bool
    requires tree { IsTree tree.now }
    requires named { IsInName tree.now name.number }
    ensures { result ≡ some_end (fits (reverse pattern.now)) (left_of tree.now name.entry) }
{
    let mut pattern = pattern;
    let mut name = name;
    loop {
        match to_star(tree, pattern, name) {
            Piece::Ends(true) => return true,
            Piece::Ends(false) => match last_byte(tree, name) {
                Some((_, rest)) => name = rest,
                None => return false,
            },
            Piece::Star(more, rest) => {
                pattern = more;
                name = rest;
            }
        }
    }
}

/// Whether the pattern matches what is left of the name.
pub(crate) fn matches<'a>(tree: &'a Tree, pattern: &'a [u8], name: NameEnd<'a>) -> bool
    requires tree { IsTree tree.now }
    requires named { IsInName tree.now name.number }
    ensures { result ≡ fits (reverse pattern.now) (left_of tree.now name.entry) }
{
    match to_star(tree, pattern, name) {
        Piece::Ends(fit) => fit,
        Piece::Star(more, rest) => matches_beginning(tree, more, rest),
    }
}
