//! What is declared of the next node.

ghost use Rattle.std.specs.Prelude.{◌≡◌, IfOk};
ghost use Rattle.test_tree.specs.Marks.{is_unmarked, marked, no_marks};

use crate::sort::Sort;
use descriptor::{BodyId, Locks, Mode, Node};
use std::alloc::{AllocError, Global};
use tag_expr::TagSet;
use unique_id::{Text, UniqueId, both};

/// What is declared of the next node.
#[derive(Drop)]
pub(crate) struct Marks {
    pub(crate) tags: TagSet,
    pub(crate) locks: Locks,
    pub(crate) mode: Option<Mode>,
    pub(crate) isolated: bool,
    pub(crate) disabled: Option<Text>,
    /// From how many milliseconds on it is slow.
    pub(crate) slow: Option<u32>,
}

/// A copy of the reason, if there is one.
fn copied(reason: &Option<Text>) -> Result<Option<Text>, AllocError>
    ensures { IfOk result (λ copy. copy ≡ reason.now) }
{
    match reason {
        Some(reason) => Ok(Some(reason.copy()?)),
        None => Ok(None),
    }
}

impl Marks {
    /// Nothing is declared.
    pub(crate) fn none(alloc: Global) -> Marks
        ensures { result ≡ no_marks }
    {
        Marks {
            tags: TagSet::new(alloc),
            locks: Locks::new(alloc),
            mode: None,
            isolated: false,
            disabled: None,
            slow: None,
        }
    }

    /// What was declared is so no more.
    pub(crate) fn clear(&mut self, alloc: Global)
        ensures { self.new ≡ no_marks }
    {
        *self = Marks::none(alloc);
    }

    /// Whether nothing is declared.
    pub(crate) fn is_none(&self) -> bool
        ensures { result ≡ is_unmarked self.now }
    {
        self.tags.is_empty()
            && self.locks.as_slice().is_empty()
            && self.mode.is_none()
            && !self.isolated
            && self.disabled.is_none()
            && self.slow.is_none()
    }

    /// The node of which this is declared.
    pub(crate) fn node(
        &self,
        alloc: Global,
        sort: Sort,
        id: UniqueId,
        name: &str,
        body: Option<BodyId>,
    ) -> Result<Node, AllocError>
        ensures { IfOk result (λ node. node ≡ marked self.now sort id name.now body) }
    {
        let texts = both(Text::new(alloc, name), copied(&self.disabled));
        let rest = both(self.locks.copy(), self.tags.copy(alloc));
        let ((name, disabled), (locks, tags)) = both(texts, rest)?;
        Ok(Node {
            id,
            name,
            kind: sort.kind(),
            role: sort.role(),
            mode: self.mode,
            locks,
            isolated: self.isolated,
            body,
            after: None,
            disabled,
            tags,
        })
    }
}
