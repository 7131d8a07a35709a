//! From when on a test is slow whose own line does not say it.

ghost use Rattle.std.specs.Prelude.{◌≡◌};
ghost use Rattle.config_params.specs.Parameters.{answer_over};
ghost use Rattle.config_params.specs.Settings.{slow_of, slow_key};

use crate::numbers::limit_in;
use crate::params::{Params, get_over};
use crate::settings_fault::SettingsFault;

const SLOW: &str = "nelborugy.slow.default";

/// From how many milliseconds on a test is slow whose own line does not say it, if some are given.
pub(crate) fn slow_of(over: &Params, under: &Params) -> Result<Option<u32>, SettingsFault>
    ensures { result ≡ slow_of (answer_over over.now under.now slow_key) }
{
    let Some(value) = get_over(over, under, SLOW) else {
        return Ok(None);
    };
    match limit_in(value) {
        Some(limit) => Ok(Some(limit)),
        None => Err(SettingsFault::BadSlow),
    }
}
