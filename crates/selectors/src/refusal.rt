//! Selectors that cover no node.

ghost use Rattle.std.specs.Prelude.{◌≡◌, ◌<◌, ◌+◌, ◌^◌, ◌++◌, length};
ghost use Rattle.descriptor.specs.Nodes.{IsTree};
ghost use Rattle.selectors.specs.Covered.{first_unmatched, matches, unmatched_from};

use crate::names::names;
use crate::request::Request;
use crate::selector::Selector;
use descriptor::{NodeId, Tree};

/// Whether the selector covers a node of the tree, which is so where it names one.
fn matches(tree: &Tree, selector: &Selector) -> bool
    requires { IsTree tree.now }
    ensures { result ≡ matches tree.now selector.now }
{
    for number in 0..tree.len() {
        if names(tree, selector, NodeId::new(number as u16)) {
            return true;
        }
    }
    false
}

/// The number of the first of these selectors that covers no node, where so many stand before them.
fn unmatched_from(tree: &Tree, before: usize, selectors: &[Selector]) -> Option<usize>
    requires tree { IsTree tree.now }
    requires few { before + length selectors.now < 2 ^ 64 }
    ensures { result ≡ unmatched_from tree.now before selectors.now }
{
    for (index, selector) in selectors.iter().enumerate() {
        if !matches(tree, selector) {
            return Some(before + index + 1);
        }
    }
    None
}

/// The number of the first selector of a request, and then of its names, that covers no node, counted
/// from 1.
pub(crate) fn first_unmatched(tree: &Tree, request: &Request) -> Option<usize>
    requires { IsTree tree.now }
    ensures { result ≡ first_unmatched tree.now (request.now.selectors.items ++ request.now.names.items) }
{
    let selectors = request.selectors.as_slice();
    match unmatched_from(tree, 0, selectors) {
        Some(number) => Some(number),
        None => unmatched_from(tree, selectors.len(), request.names.as_slice()),
    }
}
