//! Why a call is refused, and where.

ghost use Rattle.std.specs.Prelude.{◌≡◌};
ghost use Rattle.test_tree.specs.Causes.{number_of};
ghost use Rattle.test_tree.specs.declared.cause.BuildCause.TheVariants.{NoMemory};

use crate::cause::BuildCause;
use crate::sort::Sort;
use crate::tests::Tests;
use descriptor::{NodeId, NodeLimit, TreeFault};
use std::alloc::{AllocError, AllocFailed};
use std::fmt;
use std::fmt::{Display, InlineText};

/// How much of a place is told, in bytes.
const LONGEST_PLACE: usize = 512;

/// Why a call is refused, and the node, the tag or the key that it speaks of. It takes no memory.
#[derive(Clone, Copy)]
pub struct BuildFault {
    /// Why a test or a class was refused.
    pub cause: BuildCause,
    // how many nodes there may be
    limit: NodeLimit,
    place: InlineText<{ LONGEST_PLACE }>,
}

impl BuildFault {
    pub(crate) fn at<D: Display + Drop>(cause: BuildCause, place: D) -> BuildFault
        ensures { result.cause ≡ cause }
    {
        BuildFault {
            cause,
            limit: NodeLimit::usual(),
            place: InlineText::of(place),
        }
    }

    /// The number of the refusal, or 0 for want of memory.
    pub fn number(&self) -> u8
        ensures { result ≡ number_of self.now.cause }
    {
        self.cause.number()
    }
}

impl Display for BuildFault {
    fn fmt<W: fmt::Write>(&self, f: &mut fmt::Formatter<W>) -> fmt::Result {
        let place = self.place.as_str();
        let colon = if place.is_empty() { "" } else { ": " };
        let number = self.cause.number();
        if let BuildCause::Node(TreeFault::TooMany) = self.cause {
            let limit = self.limit.nodes();
            return write!(
                f,
                "error {number}: more than {limit} nodes besides the plan{colon}{place}"
            );
        }
        write!(f, "error {number}: {}{colon}{place}", self.cause)
    }
}

impl fmt::Debug for BuildFault {
    fn fmt<W: fmt::Write>(&self, f: &mut fmt::Formatter<W>) -> fmt::Result {
        fmt::Display::fmt(self, f)
    }
}

impl From<AllocError> for BuildFault {
    ghost from_gives = { λ _ fault. fault.cause ≡ NoMemory };

    fn from(_error: AllocError) -> BuildFault {
        BuildFault::at(BuildCause::NoMemory, "")
    }
}

impl<T: Drop> From<AllocFailed<T>> for BuildFault {
    ghost from_gives = { λ _ fault. fault.cause ≡ NoMemory };

    fn from(_error: AllocFailed<T>) -> BuildFault {
        BuildFault::at(BuildCause::NoMemory, "")
    }
}

impl Tests {
    /// The text of a node's unique id; of the plan, and of a node that is not there, none.
    fn text_of(&self, node: NodeId) -> &str {
        let tree = self.tree.tree();
        if node == NodeId::ROOT || node.index() >= tree.len() {
            return "";
        }
        tree.node(node).id.text()
    }

    /// A fault of this node.
    pub(crate) fn fault_at(&self, cause: BuildCause, node: NodeId) -> BuildFault
        ensures { result.cause ≡ cause }
    {
        BuildFault::at(cause, self.text_of(node))
    }

    /// A fault of a node of this name below this one.
    pub(crate) fn fault_below(
        &self,
        cause: BuildCause,
        parent: NodeId,
        sort: Sort,
        name: &str,
    ) -> BuildFault
        ensures { result.cause ≡ cause }
    {
        let above = self.text_of(parent);
        let slash = if above.is_empty() { "" } else { "/" };
        let segment = sort.segment_type();
        let fault = BuildFault::at(cause, format_args!("{above}{slash}[{segment}:{name}]"));
        BuildFault {
            cause: fault.cause,
            limit: self.node_limit,
            place: fault.place,
        }
    }
}
