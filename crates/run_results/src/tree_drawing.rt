//! The tree of a run, as text.

ghost use Rattle.std.specs.Prelude.{◌≡◌, ℕ, ◌<◌, ◌≤◌, ◌-◌, ◌++◌, ◌∷◌, [], cond, codes, OnOk, IfOk, IfSome, string_bytes};
ghost use Rattle.descriptor.specs.Nodes.{size, IsTree};
ghost use Rattle.plan_events.specs.Texts.{text_at};
ghost use Rattle.run_results.specs.Feed.{text_or};
ghost use Rattle.run_results.specs.Told.{told_at, has_line};
ghost use Rattle.run_results.specs.Inside.Drawings.{drawn_by, drawn_from};
ghost use Rattle.run_results.specs.TreeTexts.{end_of, ending, name_at, front, line, children_drawn, lines_below};

use crate::feed::text_of;
use crate::printed::{push_cleaned, push_text};
use crate::theme::Theme;
use crate::told::NodeEvents;
use descriptor::{NodeId, Tree};
use plan_events::{Status, Texts};
use std::alloc::{AllocError, Global};

/// As many bytes as most lines have at the most.
const LINE_ROOM: usize = 32;

/// What a tree is drawn from.
#[derive(Drop)]
struct Drawing<'a> {
    theme: Theme,
    tree: &'a Tree,
    texts: &'a Texts,
    told: &'a [NodeEvents],
}

/// Appends a mark behind a space.
fn push_mark(text: &mut String, mark: &str) -> Result<(), AllocError>
    ensures { OnOk result (string_bytes text.new ≡ string_bytes text.old ++ (codes " " ++ mark.now)) }
{
    text.push_str(" ")?;
    text.push_str(mark)
}

/// Appends how a node ended that was not skipped.
fn push_end(
    text: &mut String,
    theme: Theme,
    status: Option<Status>,
    said: &str,
) -> Result<(), AllocError>
    ensures { OnOk result (string_bytes text.new ≡ string_bytes text.old ++ end_of theme status said.now) }
{
    let Some(status) = status else {
        return Ok(());
    };
    push_mark(text, theme.mark(status))?;
    match status {
        Status::Successful => Ok(()),
        _ => push_text(text, said),
    }
}

/// Appends what stands behind a name.
fn push_ending(
    text: &mut String,
    theme: Theme,
    told: NodeEvents,
    said: &str,
) -> Result<(), AllocError>
    ensures { OnOk result (string_bytes text.new ≡ string_bytes text.old ++ ending theme told.skipped told.status
        said.now) }
{
    if !told.skipped {
        return push_end(text, theme, told.status, said);
    }
    push_mark(text, theme.skip_mark())?;
    push_text(text, said)
}

/// The first text and the second behind it.
fn joined(alloc: Global, first: &str, second: &str) -> Result<String, AllocError>
    ensures { IfOk result (λ text. string_bytes text ≡ first.now ++ second.now) }
{
    let mut text = String::from_str(alloc, first)?;
    text.push_str(second)?;
    Ok(text)
}

impl Drawing<'_> {
    fn told(&self, node: NodeId) -> NodeEvents
        ensures { result ≡ told_at self.now.told.now node }
    {
        self.told
            .get(node.index())
            .copied()
            .unwrap_or(NodeEvents::NOTHING)
    }

    /// Adds a node, if it has a line.
    fn push_drawn(&self, nodes: &mut Vec<NodeId>, node: NodeId) -> Result<(), AllocError>
        ensures { OnOk result (nodes.new.items ≡ nodes.old.items
            ++ cond (has_line ((drawn_by self.now).told node)) (node ∷ []) []) }
    {
        if self.told(node).has_line() {
            nodes.push(node)?;
        }
        Ok(())
    }

    /// The children of a node that have lines.
    fn children(&self, alloc: Global, node: NodeId) -> Result<Vec<NodeId>, AllocError>
        requires { node < size self.now.tree.now }
        ensures { IfOk result (λ children. children.items ≡ children_drawn (drawn_by self.now) node) }
    {
        let mut drawn = Vec::new(alloc);
        let children = self.tree.children(node);
        for child in children {
            self.push_drawn(&mut drawn, *child)?;
        }
        Ok(drawn)
    }

    /// Appends the front of a node's line behind the items of its ancestors.
    fn push_front(
        &self,
        text: &mut String,
        items: &str,
        node: NodeId,
        is_last: bool,
    ) -> Result<(), AllocError>
        requires above_zero { 0 < node }
        requires inside { node < size self.now.tree.now }
        ensures { OnOk result (string_bytes text.new ≡ string_bytes text.old ++ front (drawn_by self.now) items.now
            node is_last) }
    {
        text.push_str(items)?;
        text.push_str(self.theme.branch(is_last))?;
        push_cleaned(text, self.tree.node(node).name.as_str())
    }

    /// Appends the line of a node behind the items of its ancestors.
    fn push_line(
        &self,
        text: &mut String,
        items: &str,
        node: NodeId,
        is_last: bool,
    ) -> Result<(), AllocError>
        requires above_zero { 0 < node }
        requires inside { node < size self.now.tree.now }
        ensures { OnOk result (string_bytes text.new ≡ string_bytes text.old ++ line (drawn_by self.now) items.now
            node is_last) }
    {
        self.push_front(text, items, node, is_last)?;
        push_ending(text, self.theme, self.told(node), text_of(self.texts, node))?;
        text.push_str("\n")
    }

    /// Appends the lines below a node behind the items of its ancestors and its own. Takes no memory
    /// for the items where no line follows.
    fn push_below(
        &self,
        alloc: Global,
        text: &mut String,
        above: &str,
        own: &str,
        node: NodeId,
    ) -> Result<(), AllocError>
        requires tree { IsTree self.now.tree.now }
        requires inside { node < size self.now.tree.now }
        ensures { OnOk result ((levels : ℕ) → size self.now.tree.now - node ≤ levels →
            string_bytes text.new ≡ string_bytes text.old ++ lines_below (drawn_by self.now) levels
            (above.now ++ own.now) node) }
    {
        let children = self.children(alloc, node)?;
        if children.is_empty() {
            return Ok(());
        }
        let items = joined(alloc, above, own)?;
        let mut left = children.as_slice();
        while let Some((child, rest)) = left.split_first() {
            let is_last = rest.is_empty();
            self.push_line(text, items.as_str(), *child, is_last)?;
            self.push_below(
                alloc,
                text,
                items.as_str(),
                self.theme.item(is_last),
                *child,
            )?;
            left = rest;
        }
        Ok(())
    }
}

/// The tree in which this was told of each node.
pub(crate) fn draw(
    alloc: Global,
    tree: &Tree,
    told: &[NodeEvents],
    texts: &Texts,
    theme: Theme,
) -> Result<String, AllocError>
    requires { IsTree tree.now }
    ensures { IfOk result (λ text. (levels : ℕ) → size tree.now ≤ levels →
        string_bytes text ≡ lines_below (drawn_from theme tree.now texts.now told.now) levels [] 0) }
{
    let drawing = Drawing {
        theme,
        tree,
        texts,
        told,
    };
    let mut text = String::with_capacity(alloc, LINE_ROOM * tree.len())?;
    drawing.push_below(alloc, &mut text, "", "", NodeId::ROOT)?;
    Ok(text)
}
