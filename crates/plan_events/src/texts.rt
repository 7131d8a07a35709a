//! The texts of a plan's nodes.

ghost use Rattle.std.specs.Prelude.{◌≡◌, ◌<◌, ◌↔◌, IfOk, IfSome, IsNone, Some, None, length, replicate, slice_set};
ghost use Rattle.descriptor.specs.Nodes.{size, reason_of};

use crate::note::Note;
use descriptor::{NodeId, Tree};
use std::alloc::{AllocError, Global};
use std::marker::Model;
use unique_id::Text;

/// The text of a node that was skipped since the plan was cancelled.
const CANCELLED: &str = "cancelled";

/// The text of a node that registered too many dynamic tests.
const TOO_MANY: &str = "too many dynamic tests";

/// A place for each node of a tree, empty or with a note, and the reasons of its disabled nodes.
#[derive(Debug)]
pub struct Texts {
    notes: Vec<Option<Note>>,
    reasons: Vec<Option<Text>>,
}

impl Drop for Texts {
    fn drop(self) {
        let Texts {
            notes: _,
            reasons: _,
        } = self;
    }
}

impl Model for Texts {
    ghost use Rattle.plan_events.specs.Texts.{TextParts};

    ghost Value = { TextParts };

    ghost view = { λ t. record { notes = t.notes.items; reasons = t.reasons.items } };
}

impl Texts {
    ghost use Rattle.plan_events.specs.Texts.{reasons_of, text_at};

    /// An empty place for each node of the tree, and a copy of each node's reason.
    pub fn new(alloc: Global, tree: &Tree) -> Result<Texts, AllocError>
        ensures notes { IfOk result (λ texts. texts.notes ≡ replicate (size tree.now) None) }
        ensures reasons { IfOk result (λ texts. texts.reasons ≡ reasons_of tree.now) }
    {
        let mut notes = Vec::with_capacity(alloc, tree.len())?;
        let mut reasons = Vec::with_capacity(alloc, tree.len())?;
        for number in 0..tree.len() {
            notes.push(None)?;
            reasons.push(reason(alloc, tree, NodeId::new(number as u16))?)?;
        }
        Ok(Texts { notes, reasons })
    }

    /// Puts a note into a node's place, in place of what was there. It takes no memory.
    pub fn set(&mut self, node: NodeId, note: Note)
        requires { node < length self.old.notes }
        ensures notes { self.new.notes ≡ slice_set self.old.notes node (Some note) }
        ensures reasons { self.new.reasons ≡ self.old.reasons }
    {
        self.notes[node.index()] = Some(note);
    }

    /// The text of a node's note, if it has one; of a note of the reason, the node's reason, if it
    /// has one. A node without a place has no text.
    pub fn of(&self, node: NodeId) -> Option<&str>
        ensures some { IfSome result (λ text. text_at self.now node ≡ Some text.now) }
        ensures none { IsNone result ↔ (text_at self.now node ≡ None) }
    {
        match self.notes.get(node.index())?.as_ref()? {
            Note::Reason => self.reasons.get(node.index())?.as_ref().map(Text::as_str),
            Note::Cancelled => Some(CANCELLED),
            Note::Own(text) => Some(text.as_str()),
            Note::TooMany => Some(TOO_MANY),
        }
    }
}

/// The reason of a node, if it is disabled, in memory of its own.
fn reason(alloc: Global, tree: &Tree, node: NodeId) -> Result<Option<Text>, AllocError>
    requires { node < size tree.now }
    ensures { IfOk result (λ reason. reason ≡ reason_of tree.now node) }
{
    tree.reason(node)
        .map(|reason| Text::new(alloc, reason))
        .transpose()
}
