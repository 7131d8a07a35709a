//! What is meant by a word that other programs have.

ghost use Rattle.std.specs.Prelude.{◌≡◌, option_map};

/// Words that other programs have for one thing, and what says it here.
#[derive(Clone, Copy)]
pub struct ForeignWords<'a> {
    pub words: &'a [&'a str],
    pub meant: &'a str,
}

impl<'a> ForeignWords<'a> {
    ghost use Rattle.suite_messages.specs.Foreign.{has_word};

    /// Whether this is one of the words, without regard to the case of ASCII letters.
    fn has(&self, word: &str) -> bool
        ensures { result ≡ has_word self.now word.now }
    {
        self.words
            .iter()
            .any(|known| known.eq_ignore_ascii_case(word))
    }
}

ghost use Rattle.suite_messages.specs.Foreign.{meant_in};

/// What is meant by a word, where the table has it, without regard to the case of ASCII letters.
pub fn meant_by<'a>(table: &[ForeignWords<'a>], word: &str) -> Option<&'a str>
    ensures { option_map (λ meant. meant.now) result ≡ meant_in table.now word.now }
{
    match table.iter().find(|entry| entry.has(word)) {
        Some(entry) => Some(entry.meant),
        None => None,
    }
}
