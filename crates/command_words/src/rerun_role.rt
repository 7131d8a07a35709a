//! What an argument of the command line stands for where saved runs are named.

ghost use Rattle.std.specs.Prelude.{◌≡◌};
ghost use Rattle.command_words.specs.Roles.{before_of, meaning_of, named, role_alone, role_of};

/// The option of which the value is the file of a saved run.
pub(crate) const RERUN_FAILED: &str = "--rerun-failed";

/// What stands before an argument.
#[derive(Clone, Copy)]
pub(crate) enum Before {
    /// Nothing: the argument is the program's name.
    Nothing,
    /// The option: the argument is the file of a saved run.
    RerunFailed,
    /// Any other argument.
    Other,
}

/// What an argument stands for.
#[derive(Clone, Copy)]
pub(crate) enum Role<'a> {
    /// This argument.
    Itself(&'a str),
    /// No argument: the next one names a saved run.
    Naming,
    /// The arguments that the saved run of this file stands for.
    Saved(&'a str),
}

/// What stands before the next argument, where it is this one, with this before it.
pub(crate) fn before_of(before: Before, word: &str) -> Before
    ensures { result ≡ before_of before word.now }
{
    match before {
        Before::Nothing | Before::RerunFailed => Before::Other,
        Before::Other => {
            if word == RERUN_FAILED {
                Before::RerunFailed
            } else {
                Before::Other
            }
        }
    }
}

/// What an argument stands for that has this name and this value.
fn named<'a>(name: &str, value: &'a str, word: &'a str) -> Role<'a>
    ensures { meaning_of result ≡ named name.now value.now word.now }
{
    if name == RERUN_FAILED {
        Role::Saved(value)
    } else {
        Role::Itself(word)
    }
}

/// What an argument stands for that is no value of the option.
fn role_alone(word: &str) -> Role<'_>
    ensures { meaning_of result ≡ role_alone word.now }
{
    if word == RERUN_FAILED {
        return Role::Naming;
    }
    match word.split_once('=') {
        Some((name, value)) => named(name, value, word),
        None => Role::Itself(word),
    }
}

/// What an argument stands for, with this before it.
pub(crate) fn role_of(before: Before, word: &str) -> Role<'_>
    ensures { meaning_of result ≡ role_of before word.now }
{
    match before {
        Before::Nothing => Role::Itself(word),
        Before::RerunFailed => Role::Saved(word),
        Before::Other => role_alone(word),
    }
}
