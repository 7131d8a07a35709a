//! What a tree says of a node.

ghost use Rattle.std.specs.Prelude.{◌≡◌, IfOk};

use crate::body_id::BodyId;
use crate::kind::Kind;
use crate::lock::Lock;
use crate::locks::Locks;
use crate::mode::Mode;
use crate::role::Role;
use std::alloc::{AllocError, Global};
use tag_expr::TagSet;
use unique_id::{Text, UniqueId, both};

/// The greatest length of a name, of a reason and of a key, in bytes.
const LONGEST_TEXT: usize = 1024;

/// The greatest number of locks that a node declares.
const MOST_LOCKS: usize = 16;

/// A node other than the plan.
#[derive(Debug)]
pub struct Node {
    /// Where the node stands; no two nodes of a tree have the same.
    pub id: UniqueId,
    /// What a reader is shown, of at most 1,024 bytes.
    pub name: Text,
    /// What the node may hold.
    pub kind: Kind,
    /// Whether it is a factory, or a spare, which stands below one.
    pub role: Role,
    /// The execution mode that the node declares, if any; an engine declares none.
    pub mode: Option<Mode>,
    /// The locks that the node declares, at most 16; an engine declares none.
    pub locks: Locks,
    /// Whether nothing else runs while the node does; an engine is not isolated.
    pub isolated: bool,
    /// What runs for the node, if anything; no two bodies and after-bodies of a tree are the same.
    pub body: Option<BodyId>,
    /// What runs after the nodes below, if anything: only a container that is no factory has one.
    pub after: Option<BodyId>,
    /// Why the node is disabled, of at most 1,024 bytes; `None` where it is not. The reason may be
    /// empty.
    pub disabled: Option<Text>,
    /// The tags of the node itself, not of those above.
    pub tags: TagSet,
}

impl Drop for Node {
    fn drop(self) {
        let Node {
            id: _,
            name: _,
            kind: _,
            role: _,
            mode: _,
            locks: _,
            isolated: _,
            body: _,
            after: _,
            disabled: _,
            tags: _,
        } = self;
    }
}

impl Node {
    ghost use Rattle.descriptor.specs.Bodies.{repeats_itself, may_get_after, has_misplaced_after};
    ghost use Rattle.descriptor.specs.Declarations.{declares};
    ghost use Rattle.descriptor.specs.Limits.{is_over_limit};
    ghost use Rattle.descriptor.specs.PlainNodes.{plain};
    ghost use Rattle.descriptor.specs.Roles.{is_misplaced};

    /// A node of which nothing else is told: without tags, bodies and locks, and of no special role.
    pub fn plain(alloc: Global, id: UniqueId, name: Text, kind: Kind) -> Node
        ensures { result ≡ plain id name kind }
    {
        Node {
            id,
            name,
            kind,
            role: Role::Plain,
            mode: None,
            locks: Locks::new(alloc),
            isolated: false,
            body: None,
            after: None,
            disabled: None,
            tags: TagSet::new(alloc),
        }
    }

    /// A copy, which shares the locks and the long texts with this node; the rest has memory of its own.
    pub fn copy(&self, alloc: Global) -> Result<Node, AllocError>
        ensures { IfOk result (λ node. node ≡ self.now) }
    {
        let names = both(self.id.copy(alloc), self.name.copy());
        let rest = both(copied(&self.disabled), self.tags.copy(alloc));
        let (names, rest) = both(names, both(self.locks.copy(), rest))?;
        let (id, name) = names;
        let (locks, rest) = rest;
        let (disabled, tags) = rest;
        Ok(Node {
            id,
            name,
            kind: self.kind,
            role: self.role,
            mode: self.mode,
            locks,
            isolated: self.isolated,
            body: self.body,
            after: self.after,
            disabled,
            tags,
        })
    }

    /// Whether it declares a mode, a lock or isolation, which an engine does not.
    pub(crate) fn declares(&self) -> bool
        ensures { result ≡ declares self.now }
    {
        self.mode.is_some() || self.isolated || !self.locks.as_slice().is_empty()
    }

    /// Whether its body is its after-body, too.
    pub(crate) fn repeats_itself(&self) -> bool
        ensures { result ≡ repeats_itself self.now }
    {
        match (self.body, self.after) {
            (Some(body), Some(after)) => after == body,
            _ => false,
        }
    }

    /// Whether it may not stand below a node of this role, or has a role that its kind may not have.
    pub(crate) fn is_misplaced(&self, above: Role) -> bool
        ensures { result ≡ is_misplaced above self.now.kind self.now.role }
    {
        match self.role {
            Role::Plain => above.is_factory(),
            Role::Factory => above.is_factory() || !self.kind.is_container(),
            Role::Spare => !above.is_factory() || self.kind.is_container(),
        }
    }

    /// Whether the name, the reason or a key has more than 1,024 bytes, or there are more than 16 locks.
    pub(crate) fn is_over_limit(&self) -> bool
        ensures { result ≡ is_over_limit self.now }
    {
        is_long(&self.name)
            || self.disabled.as_ref().is_some_and(|reason| is_long(reason))
            || self.locks.as_slice().len() > MOST_LOCKS
            || has_long_key(self.locks.as_slice())
    }

    /// Whether it has an after-body that a node of its kind and role may not have.
    pub(crate) fn has_misplaced_after(&self) -> bool
        ensures { result ≡ has_misplaced_after self.now }
    {
        self.after.is_some() && !takes_after(self.kind, self.role)
    }

    /// Whether it may be given an after-body: it may have one, and has none.
    pub(crate) fn may_get_after(&self) -> bool
        ensures { result ≡ may_get_after self.now }
    {
        self.after.is_none() && takes_after(self.kind, self.role)
    }
}

ghost use Rattle.descriptor.specs.Bodies.{takes_after};
ghost use Rattle.descriptor.specs.Limits.{is_long, has_long_key};

fn takes_after(kind: Kind, role: Role) -> bool
    ensures { result ≡ takes_after kind role }
{
    kind.is_container() && !role.is_factory()
}

fn copied(text: &Option<Text>) -> Result<Option<Text>, AllocError>
    ensures { IfOk result (λ copy. copy ≡ text.now) }
{
    match text {
        Some(text) => Ok(Some(text.copy()?)),
        None => Ok(None),
    }
}

fn is_long(text: &Text) -> bool
    ensures { result ≡ is_long text.now }
{
    text.as_str().len() > LONGEST_TEXT
}

fn has_long_key(locks: &[Lock]) -> bool
    ensures { result ≡ has_long_key locks.now }
{
    locks.iter().any(|lock| is_long(&lock.key))
}
