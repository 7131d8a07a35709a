//! The line `property KEY=VALUE`, which says something of the configuration.

ghost use Rattle.std.specs.Prelude.{◌≡◌, OnOk, IfErr, Ok};
ghost use Rattle.suite_words.specs.Reading.Faults.{Fails};
ghost use Rattle.suite_words.specs.Reading.Judged.{judged_property};
ghost use Rattle.suite_words.specs.Reading.Properties.{is_property, with_property};

use crate::suite::fault::SuiteFault;
use crate::suite::line_word::LineWord;
use crate::suite::lines::next_word;
use config_params::{Params, Source, property_of};
use std::alloc::Global;

/// Whether a line begins with the keyword `property`.
pub fn is_property(line: &str) -> bool
    ensures { result ≡ is_property line.now }
{
    next_word(line).0 == LineWord::Property.spelling()
}

/// Adds the pair of a property's line to the file's parameters, where the line says one.
pub fn put_property(
    alloc: Global,
    params: &mut Params,
    number: usize,
    line: &str,
) -> Result<(), SuiteFault>
    ensures added { OnOk result (with_property number params.old line.now ≡ Ok params.new) }
    ensures refused { IfErr result (λ fault. Fails fault (with_property number params.old line.now)) }
    // Memory is taken only for a line that is not at fault.
    ensures no_memory { IfErr result (λ fault. fault ≡ SuiteFault.NoMemory → judged_property number line.now ≡ Ok tt) }
{
    match property_of(number, next_word(line).1) {
        Ok(Some(pair)) => Ok(params.add(alloc, Source::File, pair.key, pair.value)?),
        Ok(None) => Ok(()),
        Err(fault) => Err(SuiteFault::of_property(fault)),
    }
}
