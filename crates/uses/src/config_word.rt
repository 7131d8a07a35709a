//! Calls `config_params`: an argument of the command line is put over what the system and the file say.

ghost use Rattle.std.specs.Prelude.{◌≡◌, Ok, Some, OnOk, OnErr};
ghost use Rattle.config_params.specs.Pairs.{Pair, pair_of};
ghost use Rattle.config_params.specs.Parameters.{answer};

use config_params::{Params, ParamsFault, Source, pair_of};
use std::alloc::Global;

/// Puts what an argument `KEY=VALUE` says into the request's parameters: the key has this value then,
/// whatever the system and the file say.
pub fn put_word(alloc: Global, params: &mut Params, word: &str) -> Result<(), ParamsFault>
    ensures said { OnOk result ((pair : Pair) × (pair_of 1 word.now ≡ Ok pair)
        × (answer params.new pair.0 ≡ Some pair.1)) }
    ensures err { OnErr result (params.new ≡ params.old) }
{
    let pair = pair_of(1, word)?;
    params.add(alloc, Source::Request, pair.key, pair.value)?;
    Ok(())
}
