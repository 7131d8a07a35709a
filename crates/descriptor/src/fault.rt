//! Why a node is refused.

ghost use Rattle.std.specs.Prelude.{◌≡◌};
ghost use Rattle.descriptor.specs.declared.fault.TreeFault.TheVariants.{NoMemory};

use std::alloc::{AllocError, AllocFailed};
use thiserror::Error;

/// Why a node was not added. Of several reasons the first in this order is told, and want of
/// memory only where there is none.
#[derive(Clone, Copy, PartialEq, Eq, Debug, Error)]
pub enum TreeFault {
    /// There was no memory for the node.
    #[error("no memory")]
    NoMemory,
    /// Refusal 10: the tree has as many nodes as it may have, 4,095 besides the plan where nobody asks for more.
    #[error("more nodes than the tree may have")]
    TooMany,
    /// Refusal 11: the parent has depth 64.
    #[error("deeper than 64")]
    TooDeep,
    /// Refusal 12: a node has the same unique id.
    #[error("a node has this unique id")]
    DoubleId,
    /// Refusal 13: the parent is a test, which holds no other node.
    #[error("the parent takes no children")]
    ParentIsTest,
    /// Refusal 14: a child of the plan declares a mode or a lock, or is isolated.
    #[error("an engine with a mode, a lock or isolation")]
    EngineLock,
    /// Refusal 15: its body or its after-body is one already, of another node or of the same.
    #[error("a body or an after-body that is one already")]
    BodyTwice,
    /// Refusal 16: a spare whose parent is no factory or that may hold other nodes, another node below a factory, or a
    /// factory that may hold none.
    #[error("a spare outside a factory, another node in one, or a factory that takes no children")]
    SpareOutsideFactory,
    /// Refusal 17: the name, the reason or a key has more than 1,024 bytes, or there are more than 16 locks.
    #[error("a name, a reason or a key of more than 1024 bytes, or more than 16 locks")]
    OverLimit,
    /// Refusal 18: a node that takes no after-body has one: a factory, or a test that holds no other node.
    #[error("an after-body where there may be none")]
    AfterMisplaced,
}

impl TreeFault {
    ghost use Rattle.descriptor.specs.Refusals.{number_of};

    /// The number of the refusal, or 0 for want of memory.
    pub fn number(self) -> u8
        ensures { result ≡ number_of self }
    {
        match self {
            TreeFault::NoMemory => 0,
            TreeFault::TooMany => 10,
            TreeFault::TooDeep => 11,
            TreeFault::DoubleId => 12,
            TreeFault::ParentIsTest => 13,
            TreeFault::EngineLock => 14,
            TreeFault::BodyTwice => 15,
            TreeFault::SpareOutsideFactory => 16,
            TreeFault::OverLimit => 17,
            TreeFault::AfterMisplaced => 18,
        }
    }
}

impl From<AllocError> for TreeFault {
    ghost from_gives = { λ _ e. e ≡ NoMemory };

    fn from(_error: AllocError) -> TreeFault {
        TreeFault::NoMemory
    }
}

impl<T: Drop> From<AllocFailed<T>> for TreeFault {
    ghost from_gives = { λ _ e. e ≡ NoMemory };

    fn from(_failed: AllocFailed<T>) -> TreeFault {
        TreeFault::NoMemory
    }
}
