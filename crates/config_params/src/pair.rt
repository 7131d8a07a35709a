//! A key with its value, as an argument or a line says it.

ghost use Rattle.std.specs.Prelude.{◌≡◌};
ghost use Rattle.std.specs.Option.{option_map};
ghost use Rattle.std.specs.Result.{result_map_both};
ghost use Rattle.config_params.specs.Pairs.{texts_of, pair_of, says_nothing, property_of};

use crate::blanks::{Blanks, without_ends, without_front};
use crate::fault::ParamsFault;

/// A key with its value.
#[derive(Clone, Copy, Drop)]
pub struct Pair<'a> {
    pub key: &'a str,
    pub value: &'a str,
}

/// The pair that an argument `KEY=VALUE` says: it is cut at its first equals sign, and spaces and tabs
/// round key and value are dropped. Refusals, with the number given: 30 where there is no equals
/// sign, 31 where the key is empty.
pub fn pair_of(number: usize, word: &str) -> Result<Pair<'_>, ParamsFault>
    ensures { result_map_both texts_of (λ fault. fault) result ≡ pair_of number word.now }
{
    let Some((key, value)) = word.split_once('=') else {
        return Err(ParamsFault::NoEquals(number));
    };
    let key = without_ends(Blanks::SpacesAndTabs, key);
    if key.is_empty() {
        return Err(ParamsFault::EmptyKey(number));
    }
    let value = without_ends(Blanks::SpacesAndTabs, value);
    Ok(Pair { key, value })
}

/// Whether a line is passed over: it is blank, or its first character but spaces and tabs is `#`.
fn says_nothing(line: &str) -> bool
    ensures { result ≡ says_nothing line.now }
{
    let rest = without_front(Blanks::SpacesAndTabs, line);
    rest.is_empty() || rest.starts_with('#')
}

/// The pair that a line of a text of properties says, and none where it is passed over. Refusals
/// are those of `pair_of`.
pub fn property_of(number: usize, line: &str) -> Result<Option<Pair<'_>>, ParamsFault>
    ensures { result_map_both (option_map texts_of) (λ fault. fault) result ≡ property_of number line.now }
{
    if says_nothing(line) {
        return Ok(None);
    }
    match pair_of(number, line) {
        Ok(pair) => Ok(Some(pair)),
        Err(fault) => Err(fault),
    }
}
