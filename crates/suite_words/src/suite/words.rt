//! What the tokens of a line declare.

ghost use Rattle.std.specs.Prelude.{◌≡◌, ◌≢◌, IfOk, IfErr, Some, Ok};
ghost use Rattle.std.specs.List.{Contains};
ghost use Rattle.suite_words.specs.Reading.Words.{word_of, may_stand, placed, with_attributes};
ghost use Rattle.suite_words.specs.Reading.Words.{with_name, declared_as, declaration_of};
ghost use Rattle.suite_words.specs.Reading.Faults.{Gives};
ghost use Rattle.suite_words.specs.Reading.Judged.{judged_name, judged_node};
ghost use Rattle.suite_words.specs.Grammar.{words, word_text};
ghost use Rattle.suite_words.specs.declared.suite.words.Word.{Word};

use crate::script::Script;
use crate::suite::attributes::{Attribute, Attributes};
use crate::suite::fault::SuiteFault;
use crate::suite::lines::{between_spaces, next_word};
use crate::suite::pulls::Pending;
use crate::suite::verdicts::{Verdict, status_of, verdict_in};
use descriptor::{BodyId, Kind, Role};
use std::alloc::{AllocError, Global};
use unique_id::Text;

const ENGINE: &str = "engine";

const CLASS: &str = "class";

const TEST: &str = "test";

const FACTORY: &str = "factory";

const DYN: &str = "dyn";

/// The keyword with which a line begins that declares a node.
#[derive(Clone, Copy)]
pub enum Word {
    Engine,
    Class,
    Test,
    Factory,
    Dyn,
}

/// The node that a line declares.
#[derive(Drop)]
pub struct Declared<'a> {
    pub word: Word,
    pub name: &'a str,
    pub attributes: Attributes,
    pub verdict: Option<Verdict>,
    /// What follows the verdict.
    pub text: &'a str,
}

impl Word {
    ghost use Rattle.suite_words.specs.Reading.Nodes.{segment_kind, kind_declared, role_declared};
    ghost use Rattle.suite_words.specs.Reading.Attributes.{may_declare};
    ghost use Rattle.suite_words.specs.Reading.Spins.{is_spin};
    ghost use Rattle.suite_words.specs.Reading.Slow.{is_slow};
    ghost use Rattle.suite_words.specs.Reading.Pulls.{is_pulls};

    /// All of them.
    pub fn all() -> [Word; 5]
        ensures exact { result ≡ words }
        ensures every { (word : Word) → Contains result word }
    {
        [
            Word::Engine,
            Word::Class,
            Word::Test,
            Word::Factory,
            Word::Dyn,
        ]
    }

    /// How the keyword is spelled.
    pub fn spelling(self) -> &'static str
        ensures text { result.now ≡ word_text self }
        ensures read { word_of result.now ≡ Some self }
    {
        match self {
            Word::Engine => ENGINE,
            Word::Class => CLASS,
            Word::Test => TEST,
            Word::Factory => FACTORY,
            Word::Dyn => DYN,
        }
    }

    /// The keyword with this spelling.
    pub fn spelled(text: &str) -> Option<Word>
        ensures { result ≡ word_of text.now }
    {
        match text {
            // most lines are a test's
            TEST => Some(Word::Test),
            CLASS => Some(Word::Class),
            FACTORY => Some(Word::Factory),
            DYN => Some(Word::Dyn),
            ENGINE => Some(Word::Engine),
            _ => None,
        }
    }

    /// Whether the keyword may stand right below a node of this keyword, or at level 0 where there is
    /// none.
    pub fn stands_below(self, above: Option<Word>) -> bool
        ensures { result ≡ may_stand above self }
    {
        match (above, self) {
            (None, Word::Engine) => true,
            (Some(Word::Engine), Word::Class) => true,
            (Some(Word::Class), Word::Class) => true,
            (Some(Word::Class), Word::Test) => true,
            (Some(Word::Class), Word::Factory) => true,
            (Some(Word::Factory), Word::Dyn) => true,
            _ => false,
        }
    }

    /// The type of a node's segment, right below a node of this keyword or at level 0.
    pub fn segment_type(self, above: Option<Word>) -> &'static str
        ensures { result.now ≡ segment_kind above self }
    {
        match (above, self) {
            (_, Word::Engine) => "engine",
            (Some(Word::Engine), Word::Class) => "class",
            (_, Word::Class) => "nested-class",
            (_, Word::Test) => "method",
            (_, Word::Factory) => "test-factory",
            (_, Word::Dyn) => "dynamic-test",
        }
    }

    /// What the node may hold.
    pub fn kind(self) -> Kind
        ensures { result ≡ kind_declared self }
    {
        match self {
            Word::Engine | Word::Class | Word::Factory => Kind::Container,
            Word::Test | Word::Dyn => Kind::Test,
        }
    }

    /// Whether the node makes tests while the plan runs, or is one of these.
    pub fn role(self) -> Role
        ensures { result ≡ role_declared self }
    {
        match self {
            Word::Engine | Word::Class | Word::Test => Role::Plain,
            Word::Factory => Role::Factory,
            Word::Dyn => Role::Spare,
        }
    }

    /// Whether a node of this keyword may declare a mode, locks and isolation.
    pub(crate) fn may_declare(self) -> bool
        ensures { result ≡ may_declare self }
    {
        match self {
            Word::Engine | Word::Dyn => false,
            Word::Class | Word::Test | Word::Factory => true,
        }
    }

    /// Whether a token with this key is the attribute `spin` of a node of this keyword.
    pub(crate) fn takes_spin(self, key: &str) -> bool
        ensures { result ≡ is_spin self key.now }
    {
        match self {
            Word::Engine | Word::Class | Word::Factory => false,
            Word::Test | Word::Dyn => key == Attribute::Spin.key(),
        }
    }

    /// Whether a token with this key is the attribute `@slow` of a node of this keyword.
    pub(crate) fn takes_slow(self, key: &str) -> bool
        ensures { result ≡ is_slow self key.now }
    {
        match self {
            Word::Engine | Word::Class | Word::Factory => false,
            Word::Test | Word::Dyn => key == Attribute::Slow.key(),
        }
    }

    /// Whether a token with this key is the attribute `pulls` of a node of this keyword.
    pub(crate) fn takes_pulls(self, key: &str) -> bool
        ensures { result ≡ is_pulls self key.now }
    {
        match self {
            Word::Engine | Word::Class | Word::Test | Word::Dyn => false,
            Word::Factory => key == Attribute::Pulls.key(),
        }
    }
}

impl<'a> Declared<'a> {
    ghost use Rattle.suite_words.specs.Reading.Nodes.{body_declared, counts_lines, script_declared};
    ghost use Rattle.suite_words.specs.Reading.Verdicts.{reason_declared};

    /// What runs for the node of this number.
    pub fn body(&self, number: u16) -> Option<BodyId>
        ensures { result ≡ body_declared self.now.verdict number }
    {
        match status_of(self.verdict) {
            Some(_) => Some(BodyId::new(number)),
            None => None,
        }
    }

    /// Why the node is disabled, where it is.
    pub fn reason(&self, alloc: Global) -> Result<Option<Text>, AllocError>
        ensures { IfOk result (λ reason. reason ≡ reason_declared self.now.verdict self.now.text.now) }
    {
        match self.verdict {
            Some(Verdict::Disabled) => Ok(Some(Text::new(alloc, self.text)?)),
            _ => Ok(None),
        }
    }

    /// Whether the body is pulled once for each line of its factory: the line does not say how
    /// often.
    fn counts_lines(&self) -> bool
        ensures { result ≡ counts_lines (declaration_of self.now) }
    {
        self.word.role().is_factory() && self.attributes.pulls.is_none()
    }

    /// What the body of the node of this number answers.
    pub fn script(&self, alloc: Global, number: u16) -> Result<Option<Pending>, AllocError>
        ensures { IfOk result (λ script. script ≡ script_declared (declaration_of self.now) number) }
    {
        match status_of(self.verdict) {
            Some(status) => {
                let body = BodyId::new(number);
                let spin = self.attributes.spin();
                let pulls = self.attributes.pulls();
                let slow = self.attributes.slow;
                let counts = self.counts_lines();
                let script = Script::ending(alloc, body, spin, slow, pulls, status, self.text)?;
                Ok(Some(Pending { script, counts }))
            }
            None => Ok(None),
        }
    }
}

/// The keyword, where it may stand right below a node of the keyword above.
pub fn placed(number: usize, above: Option<Word>, word: Option<Word>) -> Result<Word, SuiteFault>
    ensures exact { Gives (λ word. word) result (placed number above word) }
    ensures real { IfErr result (λ fault. fault ≢ SuiteFault.NoMemory) }
{
    match word {
        Some(word) if word.stands_below(above) => Ok(word),
        _ => Err(SuiteFault::BadLine(number)),
    }
}

/// The node of this keyword and name, with the attributes and the verdict that are left of its line.
fn with_attributes<'a>(
    alloc: Global,
    number: usize,
    word: Word,
    name: &'a str,
    rest: &'a str,
) -> Result<Declared<'a>, SuiteFault>
    ensures { Gives declaration_of result (with_attributes number word name.now rest.now) }
{
    let mut attributes = Attributes::none(alloc);
    let left = attributes.read(alloc, number, word, rest)?;
    let text = between_spaces(left.after);
    let verdict = verdict_in(number, word, left.first, text)?;
    Ok(Declared {
        word,
        name,
        attributes,
        verdict,
        text,
    })
}

/// The node of this keyword, with the name and all else that is left of its line.
fn with_name<'a>(
    alloc: Global,
    number: usize,
    word: Word,
    rest: &'a str,
) -> Result<Declared<'a>, SuiteFault>
    ensures exact { Gives declaration_of result (with_name number word rest.now) }
    // Memory is taken only for a line that has a name.
    ensures no_memory { IfErr result (λ fault. fault ≡ SuiteFault.NoMemory → judged_name number rest.now ≡ Ok tt) }
{
    let (name, rest) = next_word(rest);
    if name.is_empty() {
        return Err(SuiteFault::BadLine(number));
    }
    with_attributes(alloc, number, word, name, rest)
}

/// The node that a line's keyword declares below a node of the keyword above, with what follows it.
pub fn declared_as<'a>(
    alloc: Global,
    number: usize,
    above: Option<Word>,
    first: &str,
    rest: &'a str,
) -> Result<Declared<'a>, SuiteFault>
    ensures exact { Gives declaration_of result (declared_as number above first.now rest.now) }
    // Memory is taken only for a keyword that may stand there, and that a name follows.
    ensures no_memory { IfErr result (λ fault. fault ≡ SuiteFault.NoMemory →
        judged_node number above first.now rest.now ≡ Ok tt) }
{
    let word = placed(number, above, Word::spelled(first))?;
    with_name(alloc, number, word, rest)
}
