//! The keys of the configuration that are read.

ghost use Rattle.std.specs.Prelude.{◌≡◌};
ghost use Rattle.messages.specs.Hints.{cause_of_key, is_read, is_setting, ReadsNoOther};

use crate::hint::Cause;
use config_params::lock_limited;

/// Whether parallel execution is enabled.
pub(crate) const ENABLED: &str = "junit.jupiter.execution.parallel.enabled";

const MODE: &str = "junit.jupiter.execution.parallel.mode.default";

const CLASSES_MODE: &str = "junit.jupiter.execution.parallel.mode.classes.default";

const STRATEGY: &str = "junit.jupiter.execution.parallel.config.strategy";

const PARALLELISM: &str = "junit.jupiter.execution.parallel.config.fixed.parallelism";

const FACTOR: &str = "junit.jupiter.execution.parallel.config.dynamic.factor";

/// From when on a test is slow whose own line does not say it.
const SLOW: &str = "nelborugy.slow.default";

/// How a key is written that limits a lock, whose own key stands in place of `LOCK`.
const HOLDERS: &str = "nelborugy.lock.LOCK.holders";

/// The keys that are read, as they are named to who misspelled one.
pub(crate) fn read_keys() -> [&'static str; 8] {
    [
        ENABLED,
        MODE,
        CLASSES_MODE,
        STRATEGY,
        PARALLELISM,
        FACTOR,
        SLOW,
        HOLDERS,
    ]
}

/// Whether a key says how nodes run in parallel, where that is enabled.
pub(crate) fn is_setting(key: &str) -> bool
    ensures { result ≡ is_setting key.now }
{
    key == MODE
        || key == CLASSES_MODE
        || key == STRATEGY
        || key == PARALLELISM
        || key == FACTOR
        || lock_limited(key).is_some()
}

/// Whether a key of the configuration is read: one of seven, or one that limits a lock.
pub fn is_read(key: &str) -> bool
    ensures exact { result ≡ is_read key.now }
    // Whatever the other keys have for values, the settings of a run are the same, and so are the limits of locks.
    ensures no_other { ReadsNoOther }
{
    key == ENABLED || key == SLOW || is_setting(key)
}

/// Why a key is worth a hint, where parallel execution is off, or is not.
pub fn cause_of_key(is_off: bool, key: &str) -> Option<Cause>
    ensures { result ≡ cause_of_key is_off key.now }
{
    if !is_read(key) {
        return Some(Cause::UnreadKey);
    }
    if is_off && is_setting(key) {
        return Some(Cause::IdleSetting);
    }
    None
}
