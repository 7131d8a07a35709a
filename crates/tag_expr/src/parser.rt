//! Reading an expression, phrase by phrase: an or is made of ands, an and of operands.

ghost use Rattle.std.specs.Prelude.{◌≡◌, ◌≢◌, List, ◌+◌, ◌^◌, ◌≤◌, ◌<◌, ◌∷◌, length, None, Some, option_map};
ghost use Rattle.std.specs.Prelude.{MatchOption, IfSome, IsSomeAnd, IfOk, IfErr, OnOk, box_value, false};
ghost use Rattle.std.specs.Str.{chars};
ghost use Rattle.tag_expr.specs.Connectives.{phrase_of, part_of, sign_of, joins, begins, IsPartEnd, IsEnd};
ghost use Rattle.tag_expr.specs.ExpressionFaults.{Pending, opened, operator, first_fault};
ghost use Rattle.tag_expr.specs.Expressions.{tag, negation};
ghost use Rattle.tag_expr.specs.Grammar.{or_phrase, not_phrase};
ghost use Rattle.tag_expr.specs.Nodes.{expression_of};
ghost use Rattle.tag_expr.specs.Parsing.{IsRead, IsRefused, Begins, begins_bar, begins_ampersand};
ghost use Rattle.tag_expr.specs.Tags.{first_bad};
ghost use Rattle.tag_expr.specs.Tokens.{bar, ampersand, right_paren};
ghost use Rattle.tag_expr.specs.TokenTexts.{tokens_left};

use crate::characters::first_bad;
use crate::connective::Connective;
use crate::fault::TagFault;
use crate::node::Node;
use crate::tag::Tag;
use crate::token::{Found, Token, next_token};
use std::alloc::Global;

/// The greatest number of pending `!` and `(`.
const MOST_PENDING: usize = 64;

/// A phrase that was read.
#[derive(Drop)]
pub(crate) struct Read<'a> {
    /// None where the memory ran out. Reading goes on, so that a fault that comes later is found.
    pub(crate) node: Option<Node>,
    /// What follows it.
    pub(crate) rest: &'a str,
}

/// The tag of a word that is one.
fn tag(alloc: Global, text: &str) -> Option<Node>
    ensures { IfSome (option_map expression_of result) (λ e. e ≡ tag text.now) }
{
    match Tag::of_word(alloc, text) {
        Ok(tag) => Some(Node::Tag(tag)),
        Err(_) => None,
    }
}

/// The operand that a word is, and what follows it.
fn word<'a>(alloc: Global, place: usize, text: &str, rest: &'a str) -> Result<Read<'a>, TagFault>
    requires { place + length text.now < 2 ^ 64 }
    ensures read { IfOk result (λ read. IfSome (option_map expression_of read.node) (λ e. e ≡ tag text.now)) }
    ensures left { IfOk result (λ read. read.rest.now ≡ rest.now) }
    ensures good { OnOk result (first_bad place (chars text.now) ≡ None) }
    ensures refused { IfErr result (λ fault. IsSomeAnd (first_bad place (chars text.now))
        (λ bad. fault ≡ TagFault.BadTag bad)) }
{
    if let Some(bad) = first_bad(place, text) {
        return Err(TagFault::BadTag(bad));
    }
    Ok(Read {
        node: tag(alloc, text),
        rest,
    })
}

/// The operand in memory of its own.
fn boxed(alloc: Global, operand: Option<Node>) -> Option<Box<Node>>
    ensures { IfSome result (λ place. IsSomeAnd operand (λ node. box_value place ≡ node)) }
{
    Box::new(alloc, operand?).ok()
}

fn negation(alloc: Global, operand: Option<Node>) -> Option<Node>
    ensures { IfSome (option_map expression_of result)
        (λ f. IsSomeAnd (option_map expression_of operand) (λ e. f ≡ negation e)) }
{
    Some(Node::Negation(boxed(alloc, operand)?))
}

/// Two operands and what joins them.
fn joined(
    alloc: Global,
    connective: Connective,
    left: Option<Node>,
    right: Option<Node>,
) -> Option<Node>
    ensures { IfSome (option_map expression_of result)
        (λ f. IsSomeAnd (option_map expression_of left)
        (λ d. IsSomeAnd (option_map expression_of right) (λ e. f ≡ joins connective d e))) }
{
    let (left, right) = boxed(alloc, left).zip(boxed(alloc, right))?;
    match connective {
        Connective::And => Some(Node::Conjunction(left, right)),
        Connective::Or => Some(Node::Disjunction(left, right)),
    }
}

/// What follows a bar at the front.
fn after_bar<'a>(end: usize, left: &'a str) -> Option<&'a str>
    requires { length left.now ≤ end }
    ensures cases { MatchOption result (begins_bar (tokens_left end left.now) ≡ false)
        (λ rest. Begins bar (tokens_left end left.now) (tokens_left end rest.now)) }
    ensures shorter { IfSome result (λ rest. length rest.now < length left.now) }
{
    match next_token(end, left) {
        Some(
            Found {
                token: Token::Bar,
                rest,
                ..
            },
        ) => Some(rest),
        _ => None,
    }
}

/// What follows an ampersand at the front.
fn after_ampersand<'a>(end: usize, left: &'a str) -> Option<&'a str>
    requires { length left.now ≤ end }
    ensures cases { MatchOption result (begins_ampersand (tokens_left end left.now) ≡ false)
        (λ rest. Begins ampersand (tokens_left end left.now) (tokens_left end rest.now)) }
    ensures shorter { IfSome result (λ rest. length rest.now < length left.now) }
{
    match next_token(end, left) {
        Some(
            Found {
                token: Token::Ampersand,
                rest,
                ..
            },
        ) => Some(rest),
        _ => None,
    }
}

/// What follows the sign of the connective at the front.
fn after_sign<'a>(end: usize, connective: Connective, left: &'a str) -> Option<&'a str>
    requires { length left.now ≤ end }
    ensures cases { MatchOption result (begins connective (tokens_left end left.now) ≡ false)
        (λ rest. Begins (sign_of connective) (tokens_left end left.now) (tokens_left end rest.now)) }
    ensures shorter { IfSome result (λ rest. length rest.now < length left.now) }
{
    match connective {
        Connective::And => after_ampersand(end, left),
        Connective::Or => after_bar(end, left),
    }
}

/// What follows the parenthesis that closes the one at `place`.
fn after_group<'a>(end: usize, place: usize, left: &'a str) -> Result<&'a str, TagFault>
    requires fits { length left.now ≤ end }
    requires no_bar { begins_bar (tokens_left end left.now) ≡ false }
    requires no_ampersand { begins_ampersand (tokens_left end left.now) ≡ false }
    ensures closed { IfOk result (λ rest. Begins right_paren (tokens_left end left.now) (tokens_left end rest.now)) }
    ensures shorter { IfOk result (λ rest. length rest.now < length left.now) }
    ensures real { IfErr result (λ fault. fault ≢ TagFault.NoMemory) }
    ensures refused { IfErr result (λ fault. (pending : List Pending) →
        first_fault end operator (opened place ∷ pending) (tokens_left end left.now) ≡ Some fault) }
{
    match next_token(end, left) {
        None => Err(TagFault::ParenOpen(place)),
        Some(
            Found {
                token: Token::RightParen,
                rest,
                ..
            },
        ) => Ok(rest),
        Some(found) => Err(TagFault::OperatorMissing(found.place)),
    }
}

/// The operand at the front, where so many are pending.
#[cycle(parser)]
fn operand<'a>(
    alloc: Global,
    end: usize,
    pending: usize,
    left: &'a str,
) -> Result<Read<'a>, TagFault>
    requires fits { length left.now ≤ end }
    requires shallow { pending ≤ 64 }
    ensures read { IfOk result (λ read. IsRead not_phrase end pending (tokens_left end left.now)
        (tokens_left end read.rest.now) (option_map expression_of read.node)) }
    ensures real { IfErr result (λ fault. fault ≢ TagFault.NoMemory) }
    ensures refused { IfErr result (λ fault. IsRefused not_phrase end pending (tokens_left end left.now) fault) }
    ensures shorter { IfOk result (λ read. length read.rest.now < length left.now) }
{
    let Some(found) = next_token(end, left) else {
        return Err(TagFault::OperandMissing(end));
    };
    let rest = found.rest;
    match found.token {
        Token::Word(text) => word(alloc, found.place, text, rest),
        Token::AnyCall => Ok(Read {
            node: Some(Node::AnyTag),
            rest,
        }),
        Token::NoneCall => Ok(Read {
            node: Some(Node::NoTag),
            rest,
        }),
        Token::Bang => {
            if pending == MOST_PENDING {
                return Err(TagFault::TooDeep);
            }
            let read = operand(alloc, end, pending + 1, rest)?;
            Ok(Read {
                node: negation(alloc, read.node),
                rest: read.rest,
            })
        }
        Token::LeftParen => {
            if pending == MOST_PENDING {
                return Err(TagFault::TooDeep);
            }
            let read = operands(alloc, end, pending + 1, Connective::Or, rest)?;
            match after_group(end, found.place, read.rest) {
                Ok(rest) => Ok(Read {
                    node: read.node,
                    rest,
                }),
                Err(fault) => {
                    drop(read);
                    Err(fault)
                }
            }
        }
        Token::RightParen | Token::Ampersand | Token::Bar => {
            Err(TagFault::OperandMissing(found.place))
        }
    }
}

/// An operand of the connective at the front.
#[cycle(parser)]
fn part<'a>(
    alloc: Global,
    end: usize,
    pending: usize,
    connective: Connective,
    left: &'a str,
) -> Result<Read<'a>, TagFault>
    requires fits { length left.now ≤ end }
    requires shallow { pending ≤ 64 }
    ensures read { IfOk result (λ read. IsRead (part_of connective) end pending (tokens_left end left.now)
        (tokens_left end read.rest.now) (option_map expression_of read.node)) }
    ensures real { IfErr result (λ fault. fault ≢ TagFault.NoMemory) }
    ensures refused { IfErr result (λ fault. IsRefused (part_of connective) end pending (tokens_left end left.now)
        fault) }
    ensures shorter { IfOk result (λ read. length read.rest.now < length left.now) }
    ensures ended { IfOk result (λ read. IsPartEnd connective (tokens_left end read.rest.now)) }
{
    match connective {
        Connective::And => operand(alloc, end, pending, left),
        Connective::Or => operands(alloc, end, pending, Connective::And, left),
    }
}

/// The operands at the front with the connective between them.
#[cycle(parser)]
fn operands<'a>(
    alloc: Global,
    end: usize,
    pending: usize,
    connective: Connective,
    left: &'a str,
) -> Result<Read<'a>, TagFault>
    requires fits { length left.now ≤ end }
    requires shallow { pending ≤ 64 }
    ensures read { IfOk result (λ read. IsRead (phrase_of connective) end pending (tokens_left end left.now)
        (tokens_left end read.rest.now) (option_map expression_of read.node)) }
    ensures real { IfErr result (λ fault. fault ≢ TagFault.NoMemory) }
    ensures refused { IfErr result (λ fault. IsRefused (phrase_of connective) end pending (tokens_left end left.now)
        fault) }
    ensures shorter { IfOk result (λ read. length read.rest.now < length left.now) }
    ensures ended { IfOk result (λ read. IsEnd connective (tokens_left end read.rest.now)) }
{
    let mut read = part(alloc, end, pending, connective, left)?;
    while let Some(after) = after_sign(end, connective, read.rest) {
        let right = part(alloc, end, pending, connective, after)?;
        read = Read {
            node: joined(alloc, connective, read.node, right.node),
            rest: right.rest,
        };
    }
    Ok(read)
}

/// The expression at the front.
pub(crate) fn alternatives<'a>(
    alloc: Global,
    end: usize,
    pending: usize,
    left: &'a str,
) -> Result<Read<'a>, TagFault>
    requires fits { length left.now ≤ end }
    requires shallow { pending ≤ 64 }
    ensures read { IfOk result (λ read. IsRead or_phrase end pending (tokens_left end left.now)
        (tokens_left end read.rest.now) (option_map expression_of read.node)) }
    ensures real { IfErr result (λ fault. fault ≢ TagFault.NoMemory) }
    ensures refused { IfErr result (λ fault. IsRefused or_phrase end pending (tokens_left end left.now) fault) }
    ensures shorter { IfOk result (λ read. length read.rest.now < length left.now) }
    ensures no_ampersand { IfOk result (λ read. begins_ampersand (tokens_left end read.rest.now) ≡ false) }
    ensures no_bar { IfOk result (λ read. begins_bar (tokens_left end read.rest.now) ≡ false) }
{
    operands(alloc, end, pending, Connective::Or, left)
}
