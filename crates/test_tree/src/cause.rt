//! Why a tree of tests was not built.

ghost use Rattle.std.specs.Prelude.{◌≡◌};
ghost use Rattle.test_tree.specs.Causes.{number_of};

use descriptor::TreeFault;
use std::alloc::AllocError;
use std::fmt;
use tag_expr::TagFault;
use unique_id::UidFault;

/// Why a call is refused.
#[derive(Clone, Copy)]
pub enum BuildCause {
    /// There was no memory.
    NoMemory,
    /// Refusal 13: a node was added beside the engine, the class or the factory, which takes no more since.
    Closed,
    /// Refusals 5 and 6: no unique id can be made of the name.
    Name(UidFault),
    /// Refusals 10 to 18: the tree refuses the node, or the after-body.
    Node(TreeFault),
    /// Refusal 21: a text that is no tag.
    Tag(TagFault),
    /// Refusal 100: a lock without a key.
    NoKey,
    /// Refusal 100: no milliseconds, or more than 86,400,000, from which on a test is slow.
    NoLimit,
    /// Refusal 100: something is declared of a dynamic test, or of a node that does not come.
    Marked,
    /// Refusal 100: a body is to run before a class, and something else comes, or nothing.
    NoClass,
}

/// What a tree refuses.
fn sentence_of(fault: TreeFault) -> &'static str {
    match fault {
        TreeFault::NoMemory => "there was not enough memory",
        TreeFault::TooMany => "more nodes than the tree may have",
        TreeFault::TooDeep => "a node that stands too deep",
        TreeFault::DoubleId => "a unique id that is there already",
        TreeFault::ParentIsTest => "a node below a test",
        TreeFault::EngineLock => "an engine with a mode, a lock or isolation",
        TreeFault::BodyTwice => "a second body of one node",
        TreeFault::SpareOutsideFactory =>
            "a dynamic test outside a factory, or another node in one",
        TreeFault::OverLimit =>
            "a name, a reason or a key of more than 1024 bytes, or more than 16 locks",
        TreeFault::AfterMisplaced => "an after-body where there may be none",
    }
}

impl fmt::Display for BuildCause {
    fn fmt<W: fmt::Write>(&self, f: &mut fmt::Formatter<W>) -> fmt::Result {
        f.write_str(self.sentence())
    }
}

impl BuildCause {
    /// The number of the refusal, or 0 for want of memory.
    pub fn number(self) -> u8
        ensures { result ≡ number_of self }
    {
        match self {
            BuildCause::NoMemory => 0,
            BuildCause::Closed => 13,
            BuildCause::Name(fault) => fault.number(),
            BuildCause::Node(fault) => fault.number(),
            BuildCause::Tag(fault) => fault.number(),
            BuildCause::NoKey | BuildCause::NoLimit | BuildCause::Marked | BuildCause::NoClass =>
                100,
        }
    }

    /// What is wrong, in words.
    fn sentence(self) -> &'static str {
        match self {
            BuildCause::NoMemory => "there was not enough memory",
            BuildCause::Closed => "a parent that takes no more nodes",
            BuildCause::Name(UidFault::EmptyPart(_)) => "an empty name",
            BuildCause::Name(_) => "a unique id of more than 64 segments or 1024 bytes",
            BuildCause::Node(fault) => sentence_of(fault),
            BuildCause::Tag(_) => "a text that is no tag",
            BuildCause::NoKey => "a lock without a key",
            BuildCause::NoLimit => "a limit of no milliseconds, or of more than 86,400,000",
            BuildCause::Marked => "a tag, a mode, a lock or a limit of no node that takes it",
            BuildCause::NoClass => "a body before a class that does not come",
        }
    }
}

impl From<AllocError> for BuildCause {
    ghost use Rattle.test_tree.specs.declared.cause.BuildCause.TheVariants.{NoMemory};

    ghost from_gives = { λ _ cause. cause ≡ NoMemory };

    fn from(_error: AllocError) -> BuildCause {
        BuildCause::NoMemory
    }
}
