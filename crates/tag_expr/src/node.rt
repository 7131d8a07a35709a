//! An expression as a tree, and whether it is true of some tags.

ghost use Rattle.std.specs.Prelude.{◌≡◌, ◌==◌, length};
ghost use Rattle.std.specs.List.{list_any, list_all};
ghost use Rattle.tag_expr.specs.Expressions.{truth, together};
ghost use Rattle.tag_expr.specs.Nodes.{expression_of};
ghost use Rattle.tag_expr.specs.TagSets.{has_tag};

use crate::tag::Tag;
use crate::tag_set::TagSet;

/// An expression, with its operands below it.
#[derive(Drop)]
pub(crate) enum Node {
    Tag(Tag),
    AnyTag,
    NoTag,
    Negation(Box<Node>),
    Conjunction(Box<Node>, Box<Node>),
    Disjunction(Box<Node>, Box<Node>),
}

impl Node {
    /// Whether the expression is true of the tags of all the sets together.
    #[tactic(auto, using(crate::proofs::Together::together_has, crate::proofs::Together::together_empty))]
    pub(crate) fn is_true(&self, sets: &[&TagSet]) -> bool
        ensures { result ≡ truth (expression_of self.now) (together sets.now) }
    {
        match self {
            Node::Tag(tag) => is_in(sets, tag.as_str()),
            Node::AnyTag => !are_empty(sets),
            Node::NoTag => are_empty(sets),
            Node::Negation(operand) => !operand.is_true(sets),
            Node::Conjunction(left, right) => left.is_true(sets) && right.is_true(sets),
            Node::Disjunction(left, right) => left.is_true(sets) || right.is_true(sets),
        }
    }
}

/// Whether one of the sets has the tag.
fn is_in(sets: &[&TagSet], tag: &str) -> bool
    ensures { result ≡ list_any (λ set. has_tag set.now tag.now) sets.now }
{
    sets.iter().any(|set| set.contains(tag))
}

/// Whether no set has a tag.
fn are_empty(sets: &[&TagSet]) -> bool
    ensures { result ≡ list_all (λ set. length set.now == 0) sets.now }
{
    sets.iter().all(|set| set.is_empty())
}
