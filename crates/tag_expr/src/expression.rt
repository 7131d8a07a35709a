//! A tag expression.

ghost use Rattle.std.specs.Prelude.{◌≡◌, ◌≢◌, ◌≤◌, length, map, [], None, Some, MatchOption, IfSome, IfOk, IfErr};
ghost use Rattle.std.specs.Prelude.{false};
ghost use Rattle.tag_expr.specs.ExpressionFaults.{operator, first_fault, expression_refusal};
ghost use Rattle.tag_expr.specs.Expressions.{truth, together};
ghost use Rattle.tag_expr.specs.Grammar.{Spells, or_phrase, IsOnlyTree, HasNoTree};
ghost use Rattle.tag_expr.specs.Nodes.{expression_of};
ghost use Rattle.tag_expr.specs.Parsing.{begins_bar, begins_ampersand};
ghost use Rattle.tag_expr.specs.Tokens.{tokens, token_of};
ghost use Rattle.tag_expr.specs.TokenTexts.{tokens_left};

use crate::fault::TagFault;
use crate::node::Node;
use crate::parser::alternatives;
use crate::tag_set::TagSet;
use crate::token::{Found, Token, next_token};
use std::alloc::Global;
use std::marker::Model;

/// The greatest length of an expression's text, in bytes.
const LONGEST_TEXT: usize = 1024;

/// An expression over tags: tags, `any()`, `none()`, `!`, `&`, `|` and parentheses.
pub struct TagExpr {
    root: Node,
}

impl Drop for TagExpr {
    fn drop(self) {
        let TagExpr { root: _ } = self;
    }
}

impl Model for TagExpr {
    ghost use Rattle.tag_expr.specs.Expressions.{Expression};
    ghost use Rattle.tag_expr.specs.ExpressionCodes.{expression_code};
    ghost use Rattle.tag_expr.specs.Nodes.{expression_of};

    ghost Value = { Expression };

    ghost coded = { expression_code };

    ghost view = { λ t. expression_of t.root };
}

impl TagExpr {
    /// The expression that the text spells; `!` binds tighter than `&`, and `&` tighter than `|`.
    ///
    /// Errors: the first fault from the left, refusals 20 to 26.
    pub fn parse(alloc: Global, text: &str) -> Result<TagExpr, TagFault>
        ensures spelled { IfOk result (λ e. Spells or_phrase (map token_of (tokens text.now)) e) }
        ensures only { IfOk result (λ e. IsOnlyTree (map token_of (tokens text.now)) e) }
        ensures accepted { IfOk result (λ _. expression_refusal text.now ≡ None) }
        ensures refused { IfErr result (λ fault. fault ≢ TagFault.NoMemory → expression_refusal text.now ≡ Some fault) }
        ensures no_memory { IfErr result (λ fault. fault ≡ TagFault.NoMemory → expression_refusal text.now ≡ None) }
        ensures no_tree { IfErr result (λ fault. fault ≢ TagFault.NoMemory → fault ≢ TagFault.TooDeep →
            HasNoTree (map token_of (tokens text.now))) }
    {
        match read_whole(alloc, text)? {
            Some(root) => Ok(TagExpr { root }),
            None => Err(TagFault::NoMemory),
        }
    }

    /// Whether the expression is true of the set.
    pub fn matches(&self, tags: &TagSet) -> bool
        ensures { result ≡ truth self.now tags.now }
    {
        self.matches_together(&[tags])
    }

    /// Whether the expression is true of the tags of all the sets together.
    pub fn matches_together(&self, sets: &[&TagSet]) -> bool
        ensures { result ≡ truth self.now (together sets.now) }
    {
        self.root.is_true(sets)
    }
}

/// The expression that the text spells, and None where the memory ran out.
fn read_whole(alloc: Global, text: &str) -> Result<Option<Node>, TagFault>
    ensures spelled { IfOk result (λ node. IfSome node
        (λ node. Spells or_phrase (map token_of (tokens text.now)) (expression_of node))) }
    ensures accepted { IfOk result (λ _. expression_refusal text.now ≡ None) }
    ensures real { IfErr result (λ fault. fault ≢ TagFault.NoMemory) }
    ensures refused { IfErr result (λ fault. expression_refusal text.now ≡ Some fault) }
{
    let end = text.len();
    if end > LONGEST_TEXT {
        return Err(TagFault::TooDeep);
    }
    let Some(_) = next_token(end, text) else {
        return Err(TagFault::Empty);
    };
    let read = alternatives(alloc, end, 0, text)?;
    match fault_behind(end, read.rest) {
        Some(fault) => {
            drop(read);
            Err(fault)
        }
        None => Ok(read.node),
    }
}

/// What is wrong with the tokens behind an expression.
fn fault_behind(end: usize, left: &str) -> Option<TagFault>
    requires fits { length left.now ≤ end }
    requires no_bar { begins_bar (tokens_left end left.now) ≡ false }
    requires no_ampersand { begins_ampersand (tokens_left end left.now) ≡ false }
    ensures cases { MatchOption result (tokens_left end left.now ≡ [])
        (λ fault. first_fault end operator [] (tokens_left end left.now) ≡ Some fault) }
    ensures real { IfSome result (λ fault. fault ≢ TagFault.NoMemory) }
{
    match next_token(end, left) {
        None => None,
        Some(
            Found {
                place,
                token: Token::RightParen,
                ..
            },
        ) => Some(TagFault::ParenClose(place)),
        Some(found) => Some(TagFault::OperatorMissing(found.place)),
    }
}
