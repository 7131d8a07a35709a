//! The parameters that a row puts in, and what was refused on the way.

use crate::words::{PREFIX, key_and_value, say, show};
use config_params::{Params, ParamsFault, Settings, SettingsFault, Source, pair_of};
use std::alloc::Global;

/// Puts one token into a source; the number is the item's.
fn put_word(
    alloc: Global,
    params: &mut Params,
    source: Source,
    number: usize,
    word: &str,
) -> Result<(), ParamsFault> {
    let pair = pair_of(number, word)?;
    params.add(alloc, source, pair.key, pair.value)?;
    Ok(())
}

/// Puts one item in: what stands before its first colon names the source.
fn put_item(
    alloc: Global,
    params: &mut Params,
    number: usize,
    item: &str,
) -> Result<(), ParamsFault> {
    match item.split_once(':') {
        Some(("R", word)) => put_word(alloc, params, Source::Request, number, word),
        Some(("S", word)) => put_word(alloc, params, Source::System, number, word),
        Some(("F", text)) => params.parse_properties(alloc, text),
        _ => Ok(()),
    }
}

/// Puts one item in, and adds its refusal, where it was refused, to the answer.
fn put_or_tell(alloc: Global, params: &mut Params, number: usize, item: &str, answer: &mut String) {
    match put_item(alloc, params, number, item) {
        Ok(()) => {},
        Err(fault) => {
            show(answer, "error ", fault.number());
            show(answer, " at ", fault.place().unwrap_or(0));
            say(answer, ", ")
        }
    }
}

/// Puts the items in, and adds the refusals of those that were refused to the answer.
pub(crate) fn put_items(alloc: Global, params: &mut Params, items: &str, answer: &mut String) {
    let mut number: usize = 0;
    for item in items.split('|') {
        number = number.saturating_add(1);
        put_or_tell(alloc, params, number, item, answer);
    }
}

/// Puts the value of a key, which is written without its beginning, into the request.
fn request_word(alloc: Global, params: &mut Params, word: &str) {
    let (key, value) = key_and_value(word);
    let mut whole = String::new(alloc);
    show(&mut whole, PREFIX, key);
    let _ = params.add(alloc, Source::Request, whole.as_str(), value);
    drop(whole)
}

/// The settings that a request's tokens give, on a machine of four processors.
pub(crate) fn requested(alloc: Global, words: &str) -> Result<Settings, SettingsFault> {
    let mut params = Params::new(alloc);
    for word in words.split(' ') {
        request_word(alloc, &mut params, word);
    }
    let settings = Settings::read(&params, 4);
    drop(params);
    settings
}
