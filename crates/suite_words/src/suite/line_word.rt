//! The keywords that a line of a suite may begin with.

ghost use Rattle.std.specs.Prelude.{◌≡◌, Some};
ghost use Rattle.std.specs.List.{Contains};
ghost use Rattle.suite_words.specs.Grammar.{line_words, line_word_text, line_word_of};
ghost use Rattle.suite_words.specs.declared.suite.line_word.LineWord.{LineWord};

use crate::suite::words::Word;

/// The keyword with which a line begins.
#[derive(Clone, Copy)]
pub enum LineWord {
    /// Of a line that declares a node.
    Node(Word),
    /// Of an after-body's line.
    After,
    /// Of a line that says something of the configuration.
    Property,
}

impl LineWord {
    /// All of them.
    pub fn all() -> [LineWord; 7]
        ensures exact { result ≡ line_words }
        ensures every { (word : LineWord) → Contains result word }
    {
        [
            LineWord::Node(Word::Engine),
            LineWord::Node(Word::Class),
            LineWord::Node(Word::Test),
            LineWord::Node(Word::Factory),
            LineWord::Node(Word::Dyn),
            LineWord::After,
            LineWord::Property,
        ]
    }

    /// How the keyword is spelled.
    #[tactic(auto, using(crate::proofs::Grammar::line_word_back))]
    pub fn spelling(self) -> &'static str
        ensures text { result.now ≡ line_word_text self }
        ensures read { line_word_of result.now ≡ Some self }
    {
        match self {
            LineWord::Node(word) => word.spelling(),
            LineWord::After => "after",
            LineWord::Property => "property",
        }
    }

    /// The keyword with this spelling.
    pub fn spelled(text: &str) -> Option<LineWord>
        ensures { result ≡ line_word_of text.now }
    {
        if text == LineWord::After.spelling() {
            return Some(LineWord::After);
        }
        if text == LineWord::Property.spelling() {
            return Some(LineWord::Property);
        }
        match Word::spelled(text) {
            Some(word) => Some(LineWord::Node(word)),
            None => None,
        }
    }
}
