//! What an argument of the command line stands for.

ghost use Rattle.std.specs.Prelude.{◌≡◌};
ghost use Rattle.word_files.specs.Roles.{before_of, files_of, named, role_alone, role_of, meaning_of, replayed, unescaped};

/// The option whose value may be the arguments of a file.
const REPLAY: &str = "--replay";

/// What stands before its value in one argument.
const REPLAY_IS: &str = "--replay=";

/// What stands before an argument.
#[derive(Clone, Copy)]
pub(crate) enum Before {
    /// Nothing: the argument is the program's name.
    Nothing,
    /// An option of which the arguments of a file may be the value.
    Replay,
    /// Any other argument.
    Other,
}

/// What an argument stands for.
#[derive(Clone, Copy)]
pub(crate) enum Role<'a> {
    /// This argument.
    Itself(&'a str),
    /// The arguments of this file.
    WordsOf(&'a str),
    /// One argument: this text, and behind it the arguments of this file, with a blank between each two.
    Joined(&'a str, &'a str),
}

impl<'a> Role<'a> {
    /// The file that the argument names, if it names one.
    pub(crate) fn into_file(self) -> Option<&'a str> {
        match self {
            Role::Itself(_) => None,
            Role::WordsOf(file) => Some(file),
            Role::Joined(_, file) => Some(file),
        }
    }
}

/// How many files an argument names: one, or none.
pub(crate) fn files_of(role: Role<'_>) -> usize
    ensures { result ≡ files_of (meaning_of role.entry) }
{
    match role {
        Role::Itself(_) => 0,
        Role::WordsOf(_) | Role::Joined(_, _) => 1,
    }
}

/// What stands before the next argument, where it is this one.
pub(crate) fn before_of(word: &str) -> Before
    ensures { result ≡ before_of word.now }
{
    if word == REPLAY {
        Before::Replay
    } else {
        Before::Other
    }
}

/// What an argument stands for, of which this stands behind its first `@`.
fn named(rest: &str) -> Role<'_>
    ensures { meaning_of result ≡ named rest.now }
{
    match rest.strip_prefix('@') {
        Some(_) => Role::Itself(rest),
        None => Role::WordsOf(rest),
    }
}

/// What an argument stands for that is no value of `--replay`.
fn unescaped(word: &str) -> Role<'_>
    ensures { meaning_of result ≡ unescaped word.now }
{
    match word.strip_prefix('@') {
        Some(rest) => named(rest),
        None => Role::Itself(word),
    }
}

/// What an argument stands for that is this text and, behind it, this value of `--replay`.
fn replayed<'a>(front: &'a str, value: &'a str, word: &'a str) -> Role<'a>
    ensures { meaning_of result ≡ replayed front.now value.now word.now }
{
    match value.strip_prefix('@') {
        Some(file) => Role::Joined(front, file),
        None => Role::Itself(word),
    }
}

/// What an argument stands for that stands behind another than `--replay`.
fn role_alone(word: &str) -> Role<'_>
    ensures { meaning_of result ≡ role_alone word.now }
{
    match word.split_once('=') {
        Some((name, value)) => {
            if name == REPLAY {
                replayed(REPLAY_IS, value, word)
            } else {
                unescaped(word)
            }
        }
        None => unescaped(word),
    }
}

/// What an argument stands for, with this before it.
pub(crate) fn role_of(before: Before, word: &str) -> Role<'_>
    ensures { meaning_of result ≡ role_of before word.now }
{
    match before {
        Before::Nothing => Role::Itself(word),
        Before::Replay => replayed("", word, word),
        Before::Other => role_alone(word),
    }
}
