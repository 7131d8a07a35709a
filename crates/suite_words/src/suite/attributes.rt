//! The attributes of a line, which stand before its verdict.

ghost use Rattle.std.specs.Prelude.{◌≡◌, ◌≢◌, OnOk, IfOk, IfErr, Ok, Some, None};
ghost use Rattle.std.specs.List.{Contains};
ghost use Rattle.suite_words.specs.Grammar.{attributes, attribute_text, bearer};
ghost use Rattle.suite_words.specs.Reading.Attributes.{after_sign, declaration_in, attribute_of, no_attributes};
ghost use Rattle.suite_words.specs.Reading.Attributes.{with_tag_of, with_spin_of, with_slow_of, with_pulls_of, with_mode};
ghost use Rattle.suite_words.specs.Reading.Attributes.{with_attribute, attributes_from, spin_said, pulls_said};
ghost use Rattle.suite_words.specs.Reading.Faults.{Fails, Gives};
ghost use Rattle.suite_words.specs.Reading.Lines.{first_word, after_word};
ghost use Rattle.suite_words.specs.Words.{words_in};
ghost use Rattle.suite_words.specs.declared.suite.attributes.Attribute.{Attribute};
ghost use Rattle.tag_expr.specs.Tags.{tag_refusal};

use crate::suite::fault::SuiteFault;
use crate::suite::lines::next_word;
use crate::suite::locks::{NamedLocks, put_lock};
use crate::suite::slow::limit_in;
use crate::suite::spins::{count_in, key_and_value};
use crate::suite::words::Word;
use descriptor::Mode;
use std::alloc::Global;
use tag_expr::{TagFault, TagSet, tag_of};

/// The farthest that a body counts.
pub const LONGEST_SPIN: u32 = 1_000_000;

/// The greatest number of tests that a body registers.
pub const MOST_PULLS: u32 = 4_096;

/// The token by which a node is executed beside others.
const CONCURRENT: &str = "@concurrent";

/// The token by which a node is executed on its parent's thread.
const SAME_THREAD: &str = "@same_thread";

/// The token by which a node is executed alone.
const ISOLATED: &str = "isolated";

/// The key of a lock.
const LOCK: &str = "lock";

/// What an attribute is about.
#[derive(Clone, Copy)]
pub enum Attribute {
    /// `#TAG`
    Tag,
    /// `spin=N`
    Spin,
    /// `pulls=N`
    Pulls,
    /// `@concurrent`, `@same_thread`
    Runs(Mode),
    /// `lock=KEY`
    Lock,
    /// `isolated`
    Isolated,
    /// `@slow=MS`
    Slow,
}

impl Attribute {
    /// All of them.
    pub fn all() -> [Attribute; 8]
        ensures exact { result ≡ attributes }
        ensures every { (attribute : Attribute) → Contains result attribute }
    {
        [
            Attribute::Tag,
            Attribute::Runs(Mode::Concurrent),
            Attribute::Runs(Mode::SameThread),
            Attribute::Isolated,
            Attribute::Lock,
            Attribute::Spin,
            Attribute::Pulls,
            Attribute::Slow,
        ]
    }

    /// The token that the attribute is, or what stands before its equals sign; of a tag, its sign.
    pub fn key(self) -> &'static str
        ensures text { result.now ≡ attribute_text self }
        ensures read { attribute_of (bearer self) result.now ≡ Some self }
    {
        match self {
            Attribute::Tag => "#",
            Attribute::Runs(Mode::Concurrent) => CONCURRENT,
            Attribute::Runs(Mode::SameThread) => SAME_THREAD,
            Attribute::Isolated => ISOLATED,
            Attribute::Lock => LOCK,
            Attribute::Spin => "spin",
            Attribute::Pulls => "pulls",
            Attribute::Slow => "@slow",
        }
    }

    /// The attribute that a token of a line is, where a node of this keyword may have it.
    pub fn of(word: Word, text: &str) -> Option<Attribute>
        ensures { result ≡ attribute_of word text.now }
    {
        if !matches!(word, Word::Dyn) && text.starts_with('#') {
            return Some(Attribute::Tag);
        }
        let (key, _) = key_and_value(text);
        if word.takes_spin(key) {
            return Some(Attribute::Spin);
        }
        if word.takes_slow(key) {
            return Some(Attribute::Slow);
        }
        if word.takes_pulls(key) {
            return Some(Attribute::Pulls);
        }
        if word.may_declare() {
            Attribute::declaring(text, key)
        } else {
            None
        }
    }

    /// The attribute that declares how a node is executed, of a token with this key.
    fn declaring(text: &str, key: &str) -> Option<Attribute>
        ensures { result ≡ declaration_in text.now key.now }
    {
        match text {
            CONCURRENT => Some(Attribute::Runs(Mode::Concurrent)),
            SAME_THREAD => Some(Attribute::Runs(Mode::SameThread)),
            ISOLATED => Some(Attribute::Isolated),
            _ => {
                if key == LOCK {
                    Some(Attribute::Lock)
                } else {
                    None
                }
            }
        }
    }
}

/// What the attributes of a line say.
#[derive(Drop)]
pub struct Attributes {
    /// Each tag once, in the order of the line.
    pub tags: TagSet,
    /// How far the node's body counts first.
    pub spin: Option<u32>,
    /// From how many milliseconds on the node's body is slow.
    pub slow: Option<u32>,
    /// How many tests the node's body registers.
    pub pulls: Option<u16>,
    pub mode: Option<Mode>,
    /// Each key once, in byte order.
    pub locks: NamedLocks,
    pub isolated: bool,
}

impl Attributes {
    /// Before the first attribute.
    pub(crate) fn none(alloc: Global) -> Attributes
        ensures { result ≡ no_attributes }
    {
        Attributes {
            tags: TagSet::new(alloc),
            spin: None,
            slow: None,
            pulls: None,
            mode: None,
            locks: NamedLocks::new(alloc),
            isolated: false,
        }
    }

    /// How far the node's body counts first, 0 where the line does not say it.
    pub(crate) fn spin(&self) -> u32
        ensures { result ≡ spin_said self.now }
    {
        match self.spin {
            Some(spin) => spin,
            None => 0,
        }
    }

    /// How many tests the node's body registers, 0 where the line does not say it.
    pub(crate) fn pulls(&self) -> u16
        ensures { result ≡ pulls_said self.now }
    {
        match self.pulls {
            Some(pulls) => pulls,
            None => 0,
        }
    }

    /// Adds the tag that a text is.
    fn add_tag(&mut self, alloc: Global, number: usize, text: &str) -> Result<(), SuiteFault>
        ensures added { OnOk result (with_tag_of number self.old text.now ≡ Ok self.new) }
        ensures refused { IfErr result (λ fault. Fails fault (with_tag_of number self.old text.now)) }
        // Memory is taken only for a tag.
        ensures no_memory { IfErr result (λ fault. fault ≡ SuiteFault.NoMemory → tag_refusal text.now ≡ None) }
    {
        match tag_of(alloc, text) {
            Ok(tag) => Ok(self.tags.add(tag)?),
            Err(TagFault::NoMemory) => Err(SuiteFault::NoMemory),
            Err(_) => Err(SuiteFault::BadLine(number)),
        }
    }

    /// Sets how far the body counts first, which a line may say once.
    fn set_spin(&mut self, number: usize, value: &str) -> Result<(), SuiteFault>
        ensures added { OnOk result (with_spin_of number self.old value.now ≡ Ok self.new) }
        ensures refused { IfErr result (λ fault. Fails fault (with_spin_of number self.old value.now)) }
        ensures real { IfErr result (λ fault. fault ≢ SuiteFault.NoMemory) }
    {
        if self.spin.is_some() {
            return Err(SuiteFault::BadLine(number));
        }
        self.spin = Some(count_in(number, LONGEST_SPIN, value)?);
        Ok(())
    }

    /// Sets from how many milliseconds on the body is slow, which a line may say once.
    fn set_slow(&mut self, number: usize, value: &str) -> Result<(), SuiteFault>
        ensures added { OnOk result (with_slow_of number self.old value.now ≡ Ok self.new) }
        ensures refused { IfErr result (λ fault. Fails fault (with_slow_of number self.old value.now)) }
        ensures real { IfErr result (λ fault. fault ≢ SuiteFault.NoMemory) }
    {
        if self.slow.is_some() {
            return Err(SuiteFault::BadLine(number));
        }
        self.slow = Some(limit_in(number, value)?);
        Ok(())
    }

    /// Sets how many tests the body registers, which a line may say once.
    fn set_pulls(&mut self, number: usize, value: &str) -> Result<(), SuiteFault>
        ensures added { OnOk result (with_pulls_of number self.old value.now ≡ Ok self.new) }
        ensures refused { IfErr result (λ fault. Fails fault (with_pulls_of number self.old value.now)) }
        ensures real { IfErr result (λ fault. fault ≢ SuiteFault.NoMemory) }
    {
        if self.pulls.is_some() {
            return Err(SuiteFault::BadLine(number));
        }
        self.pulls = Some(count_in(number, MOST_PULLS, value)? as u16);
        Ok(())
    }

    /// Sets the mode, which a line may say once.
    fn set_mode(&mut self, number: usize, mode: Mode) -> Result<(), SuiteFault>
        ensures added { OnOk result (with_mode number self.old mode ≡ Ok self.new) }
        ensures refused { IfErr result (λ fault. Fails fault (with_mode number self.old mode)) }
        ensures real { IfErr result (λ fault. fault ≢ SuiteFault.NoMemory) }
    {
        if self.mode.is_some() {
            return Err(SuiteFault::BadLine(number));
        }
        self.mode = Some(mode);
        Ok(())
    }

    /// Adds what an attribute says, which is this token of the line.
    fn add(
        &mut self,
        alloc: Global,
        number: usize,
        attribute: Attribute,
        text: &str,
    ) -> Result<(), SuiteFault>
        ensures added { OnOk result (with_attribute number self.old text.now attribute ≡ Ok self.new) }
        ensures refused { IfErr result (λ fault. Fails fault (with_attribute number self.old text.now attribute)) }
    {
        match attribute {
            Attribute::Tag => self.add_tag(alloc, number, after_sign(text)),
            Attribute::Spin => self.set_spin(number, key_and_value(text).1),
            Attribute::Slow => self.set_slow(number, key_and_value(text).1),
            Attribute::Pulls => self.set_pulls(number, key_and_value(text).1),
            Attribute::Runs(mode) => self.set_mode(number, mode),
            Attribute::Lock => put_lock(alloc, &mut self.locks, number, key_and_value(text).1),
            Attribute::Isolated => {
                self.isolated = true;
                Ok(())
            }
        }
    }

    /// Adds what the attributes at the front of a text say. Answers what follows them.
    pub(crate) fn read<'a>(
        &mut self,
        alloc: Global,
        number: usize,
        word: Word,
        text: &'a str,
    ) -> Result<Left<'a>, SuiteFault>
        ensures exact { Gives (λ left. (self.new, left.rest.now)) result
            (attributes_from number word self.old (words_in text.now) text.now) }
        ensures first { IfOk result (λ left. left.first.now ≡ first_word left.rest.now) }
        ensures after { IfOk result (λ left. left.after.now ≡ after_word left.rest.now) }
    {
        let mut rest = text;
        let (mut first, mut after) = next_word(rest);
        while let Some(attribute) = Attribute::of(word, first) {
            self.add(alloc, number, attribute, first)?;
            rest = after;
            (first, after) = next_word(rest);
        }
        Ok(Left { rest, first, after })
    }
}

/// What follows the first number sign of a token.
fn after_sign(text: &str) -> &str
    ensures { result.now ≡ after_sign text.now }
{
    match text.split_once('#') {
        Some((_, rest)) => rest,
        None => "",
    }
}

/// What follows the attributes at the front of a text.
#[derive(Clone, Copy)]
pub(crate) struct Left<'a> {
    pub(crate) rest: &'a str,
    /// The first token of that.
    pub(crate) first: &'a str,
    /// What follows that token.
    pub(crate) after: &'a str,
}
