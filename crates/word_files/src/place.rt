//! Where a character of a text of arguments stands, and what it does there.

ghost use Rattle.std.specs.Prelude.{◌≡◌};
ghost use Rattle.word_files.specs.Places.{is_white, is_plain, within_word, next_place, keeps, ends_word};

/// Where the next character of a text of arguments stands.
#[derive(Clone, Copy)]
pub(crate) enum Place {
    /// Between arguments.
    Between,
    /// In a comment.
    Comment,
    /// In an argument, outside quotes.
    Word,
    /// In an argument, behind a backslash.
    Escape,
    /// In an argument, between two `'`.
    SingleQuotes,
    /// In an argument, between two `"`.
    DoubleQuotes,
    /// In an argument, between two `"`, behind a backslash.
    DoubleEscape,
}

/// Whether a character is white space between arguments.
fn is_white(c: char) -> bool
    ensures { result ≡ is_white c }
{
    c == ' ' || c == '\t' || c == '\n' || c == '\r'
}

/// Whether a character of an argument stands for itself outside quotes.
fn is_plain(c: char) -> bool
    ensures { result ≡ is_plain c }
{
    !(is_white(c) || c == '\'' || c == '"' || c == '\\')
}

/// The place behind a character of an argument that stands outside quotes.
fn within_word(c: char) -> Place
    ensures { result ≡ within_word c }
{
    if c == '\'' {
        Place::SingleQuotes
    } else if c == '"' {
        Place::DoubleQuotes
    } else if c == '\\' {
        Place::Escape
    } else {
        Place::Word
    }
}

/// The place behind this character, which stands at this place.
pub(crate) fn next_place(place: Place, c: char) -> Place
    ensures { result ≡ next_place place c }
{
    match place {
        Place::Between => {
            if is_white(c) {
                Place::Between
            } else if c == '#' {
                Place::Comment
            } else {
                within_word(c)
            }
        }
        Place::Comment => {
            if c == '\n' {
                Place::Between
            } else {
                Place::Comment
            }
        }
        Place::Word => {
            if is_white(c) {
                Place::Between
            } else {
                within_word(c)
            }
        }
        Place::Escape => Place::Word,
        Place::SingleQuotes => {
            if c == '\'' {
                Place::Word
            } else {
                Place::SingleQuotes
            }
        }
        Place::DoubleQuotes => {
            if c == '"' {
                Place::Word
            } else if c == '\\' {
                Place::DoubleEscape
            } else {
                Place::DoubleQuotes
            }
        }
        Place::DoubleEscape => Place::DoubleQuotes,
    }
}

/// Whether this character, which stands at this place, is one of the argument's.
pub(crate) fn keeps(place: Place, c: char) -> bool
    ensures { result ≡ keeps place c }
{
    match place {
        Place::Between => is_plain(c) && c != '#',
        Place::Comment => false,
        Place::Word => is_plain(c),
        Place::SingleQuotes => c != '\'',
        Place::DoubleQuotes => !(c == '"' || c == '\\'),
        Place::Escape | Place::DoubleEscape => true,
    }
}

/// Whether this character, which stands at this place, ends an argument.
pub(crate) fn ends_word(place: Place, c: char) -> bool
    ensures { result ≡ ends_word place c }
{
    match place {
        Place::Word => is_white(c),
        _ => false,
    }
}
