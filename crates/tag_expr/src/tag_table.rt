//! The tags of a set that has some.

ghost use Rattle.std.specs.Prelude.{◌≡◌, [], ◌∷◌, ◌++◌, OnOk, OnErr};
ghost use Rattle.tag_expr.specs.TagSets.{has_tag};

use crate::tag::Tag;
use std::alloc::{AllocError, Global};
use std::collections::HashSet;
use std::marker::Model;

/// Tags in their order.
#[derive(Drop)]
pub(crate) struct TagTable {
    tags: Vec<Tag>,
    // the texts of the tags, so that no search goes over all of them
    texts: HashSet<String>,
}

impl Model for TagTable {
    ghost use Rattle.std.specs.Prelude.{List, ℕ};
    ghost use Rattle.tag_expr.specs.Inside.TagTableFields.{HasTexts};

    ghost Value = { List (List ℕ) };

    ghost view = { λ t. t.tags.items };

    ghost invariant = { λ t. HasTexts t.tags.items t.texts };
}

impl TagTable {
    /// The table of no tags. It takes no memory.
    pub(crate) fn new(alloc: Global) -> TagTable
        ensures { result ≡ [] }
    {
        TagTable {
            tags: Vec::new(alloc),
            texts: HashSet::new(alloc),
        }
    }

    /// The tags, in the order in which they were added.
    pub(crate) fn tags(&self) -> &[Tag]
        ensures { result.now ≡ self.now }
    {
        self.tags.as_slice()
    }

    /// Whether the tag is one of them.
    pub(crate) fn contains(&self, tag: &str) -> bool
        ensures { result ≡ has_tag self.now tag.now }
    {
        self.texts.contains(tag)
    }

    /// Adds a last tag.
    pub(crate) fn append(&mut self, tag: Tag) -> Result<(), AllocError>
        ensures ok { OnOk result (self.new ≡ self.old ++ tag ∷ []) }
        ensures err { OnErr result (self.new ≡ self.old) }
    {
        let text = String::from_str(*self.tags.allocator(), tag.as_str())?;
        self.texts.reserve(1)?;
        self.tags.push(tag)?;
        // nothing below can fail, so that an `Err` leaves the table as it was
        let Ok(_) = self.texts.insert(text) else {
            unreachable!()
        };
        Ok(())
    }
}
