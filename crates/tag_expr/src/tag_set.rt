//! A set of tags.

ghost use Rattle.std.specs.Prelude.{◌≡◌, [], ◌∷◌, ◌++◌, length, ◌==◌, OnOk, OnErr, IfOk};
ghost use Rattle.tag_expr.specs.TagSets.{has_tag, with_tag};

use crate::tag::Tag;
use crate::tag_table::TagTable;
use std::alloc::{AllocError, Global};
use std::fmt;
use std::marker::Model;

/// A set of tags. It is as small as a pointer, since most nodes of a tree have no tag.
pub struct TagSet {
    alloc: Global,
    // None: no tags
    table: Option<Box<TagTable>>,
}

impl Drop for TagSet {
    fn drop(self) {
        let TagSet { alloc: _, table: _ } = self;
    }
}

impl Model for TagSet {
    ghost use Rattle.std.specs.Prelude.{List, ℕ};
    ghost use Rattle.tag_expr.specs.TagSets.{tags_in};

    ghost Value = { List (List ℕ) };

    ghost view = { λ s. tags_in s.table };
}

impl fmt::Debug for TagSet {
    fn fmt<W: fmt::Write>(&self, f: &mut fmt::Formatter<W>) -> fmt::Result {
        fmt::Debug::fmt(self.tags(), f)
    }
}

impl TagSet {
    /// The empty set.
    pub fn new(alloc: Global) -> TagSet
        ensures { result ≡ [] }
    {
        TagSet { alloc, table: None }
    }

    /// Puts the tag into the set.
    pub fn add(&mut self, tag: Tag) -> Result<(), AllocError>
        ensures ok { OnOk result (self.new ≡ with_tag self.old tag) }
        ensures err { OnErr result (self.new ≡ self.old) }
    {
        if self.contains(tag.as_str()) {
            return Ok(());
        }
        self.append(tag)
    }

    /// Whether the set has the tag.
    pub fn contains(&self, tag: &str) -> bool
        ensures { result ≡ has_tag self.now tag.now }
    {
        match &self.table {
            Some(table) => table.contains(tag),
            None => false,
        }
    }

    /// Whether the set has no tag.
    pub fn is_empty(&self) -> bool
        ensures { result ≡ (length self.now == 0) }
    {
        self.tags().is_empty()
    }

    /// A copy, in memory of its own.
    pub fn copy(&self, alloc: Global) -> Result<TagSet, AllocError>
        ensures { IfOk result (λ set. set ≡ self.now) }
    {
        let mut copy = TagSet::new(alloc);
        for tag in self.tags() {
            copy.append(tag.copy(alloc)?)?;
        }
        Ok(copy)
    }

    fn tags(&self) -> &[Tag]
        ensures { result.now ≡ self.now }
    {
        match &self.table {
            Some(table) => table.tags(),
            None => &[],
        }
    }

    fn append(&mut self, tag: Tag) -> Result<(), AllocError>
        ensures ok { OnOk result (self.new ≡ self.old ++ tag ∷ []) }
        ensures err { OnErr result (self.new ≡ self.old) }
    {
        if let Some(table) = &mut self.table {
            return table.append(tag);
        }
        let mut table = TagTable::new(self.alloc);
        if let Err(error) = table.append(tag) {
            drop(table);
            return Err(error);
        }
        self.table = Some(Box::new(self.alloc, table)?);
        Ok(())
    }
}
