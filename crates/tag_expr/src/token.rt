//! The tokens of a text, from the left.

ghost use Rattle.std.specs.Prelude.{◌≡◌, ◌+◌, ◌-◌, ◌<◌, ◌≤◌, length, drop, [], ◌∷◌, None, MatchOption, IfSome};
ghost use Rattle.std.specs.Prelude.{is_some, option_map, encode_utf8_all};
ghost use Rattle.std.specs.Str.{chars};
ghost use Rattle.tag_expr.specs.Tokens.{sign_of, is_word_character, word_len, is_called, sign_or_word, token_len};
ghost use Rattle.tag_expr.specs.Tokens.{front_token, front_len, placed};
ghost use Rattle.tag_expr.specs.TokenTexts.{token_read, word_length, word_size, tokens_left};

use crate::characters::is_sign;

/// A sign, a call or a word of a tag expression.
#[derive(Clone, Copy)]
pub(crate) enum Token<'a> {
    LeftParen,
    RightParen,
    Bang,
    Ampersand,
    Bar,
    AnyCall,
    NoneCall,
    Word(&'a str),
}

/// A token that was found in a text.
#[derive(Clone, Copy)]
pub(crate) struct Found<'a> {
    /// Its byte offset in the text.
    pub(crate) place: usize,
    pub(crate) token: Token<'a>,
    /// What follows it.
    pub(crate) rest: &'a str,
}

/// The sign that the character is.
fn sign_of(c: char) -> Option<Token<'static>>
    ensures sign { option_map token_read result ≡ sign_of c }
    ensures no_word { IfSome result (λ sign. word_length (token_read sign) ≡ 0) }
{
    match c {
        '(' => Some(Token::LeftParen),
        ')' => Some(Token::RightParen),
        '!' => Some(Token::Bang),
        '&' => Some(Token::Ampersand),
        '|' => Some(Token::Bar),
        _ => None,
    }
}

/// Whether a word may have the character.
fn is_word_character(c: char) -> bool
    ensures { result ≡ is_word_character c }
{
    !(c.is_whitespace() || is_sign(c))
}

/// How many bytes the word at the front has.
fn word_size(text: &str) -> usize
    ensures { result ≡ word_size (chars text.now) }
{
    let mut size = 0;
    let mut left = text.chars();
    while let Some(c) = left.next() {
        if !is_word_character(c) {
            return size;
        }
        size += c.len_utf8();
    }
    size
}

/// What follows the two parentheses of a call, where they stand at the front.
fn after_call(text: &str) -> Option<&str>
    ensures called { is_some result ≡ is_called (chars text.now) }
    ensures after { IfSome result (λ after. after.now ≡ encode_utf8_all (drop 2 (chars text.now))) }
{
    text.strip_prefix('(')?.strip_prefix(')')
}

/// The word or the call at the front, and what follows it.
fn word_or_call<'a>(text: &'a str) -> (Token<'a>, &'a str)
    ensures token { token_read result.0 ≡ sign_or_word None (chars text.now) }
    ensures within { word_length (token_read result.0) ≤ length text.now }
    ensures rest { result.1.now ≡ encode_utf8_all
        (drop (token_len (token_read result.0) (word_len (chars text.now))) (chars text.now)) }
{
    let (word, rest) = text.split_at(word_size(text));
    if let Some(after) = after_call(rest) {
        if word == "any" {
            return (Token::AnyCall, after);
        }
        if word == "none" {
            return (Token::NoneCall, after);
        }
    }
    (Token::Word(word), rest)
}

/// The token at the front, where no white space stands there, and what follows it.
fn front_token<'a>(text: &'a str) -> (Token<'a>, &'a str)
    ensures token { token_read result.0 ≡ front_token (chars text.now) }
    ensures within { word_length (token_read result.0) ≤ length text.now }
    ensures rest { result.1.now ≡ encode_utf8_all (drop (front_len (chars text.now)) (chars text.now)) }
{
    let mut characters = text.chars();
    if let Some(c) = characters.next() {
        if let Some(sign) = sign_of(c) {
            return (sign, characters.as_str());
        }
    }
    word_or_call(text)
}

/// The first token of what is left of a text that has `end` bytes.
pub(crate) fn next_token<'a>(end: usize, left: &'a str) -> Option<Found<'a>>
    requires { length left.now ≤ end }
    ensures found { MatchOption result (tokens_left end left.now ≡ [])
        (λ found. tokens_left end left.now ≡ placed found.place (token_read found.token) ∷ tokens_left end
        found.rest.now) }
    ensures within { IfSome result (λ found. found.place + word_length (token_read found.token) ≤ end) }
    ensures shorter { IfSome result (λ found. length found.rest.now < length left.now) }
{
    let left = left.trim_start();
    if left.is_empty() {
        return None;
    }
    let (token, rest) = front_token(left);
    Some(Found {
        place: end - left.len(),
        token,
        rest,
    })
}
