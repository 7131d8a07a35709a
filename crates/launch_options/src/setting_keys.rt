//! The keys and the names of the settings that a refusal may be about.

ghost use Rattle.std.specs.Prelude.{◌≡◌, ℕ, List};
ghost use Rattle.std.specs.List.{list_any};
ghost use Rattle.std.specs.Option.{option_map};
ghost use Rattle.std.specs.Result.{is_ok};
ghost use Rattle.unique_id.specs.Answers.{texts};
ghost use Rattle.config_params.specs.Settings.{strategy_spelled, is_spelled};
ghost use Rattle.launch_options.specs.SettingKeys.{key_judged};

use config_params::SettingsFault;

/// Whether parallel execution is enabled.
pub(crate) const ENABLED: &str = "junit.jupiter.execution.parallel.enabled";

/// The mode of nodes that have none of their own.
pub(crate) const MODE: &str = "junit.jupiter.execution.parallel.mode.default";

/// How the number of workers is found.
pub(crate) const STRATEGY: &str = "junit.jupiter.execution.parallel.config.strategy";

/// The number of workers of the strategy `fixed`.
pub(crate) const PARALLELISM: &str = "junit.jupiter.execution.parallel.config.fixed.parallelism";

/// The workers for each processor of the strategy `dynamic`.
const FACTOR: &str = "junit.jupiter.execution.parallel.config.dynamic.factor";

/// From when on a test is slow whose own line does not say it.
const SLOW: &str = "nelborugy.slow.default";

/// The key whose value this refusal is about, where that is one of all runs: not the key of a lock.
pub fn key_judged(fault: SettingsFault) -> Option<&'static str>
    ensures { option_map (λ key. key.now) result ≡ key_judged fault }
{
    match fault {
        SettingsFault::BadStrategy => Some(STRATEGY),
        SettingsFault::BadParallelism => Some(PARALLELISM),
        SettingsFault::BadFactor => Some(FACTOR),
        SettingsFault::BadSlow => Some(SLOW),
        SettingsFault::BadHolders | SettingsFault::UnknownLock => None,
    }
}

/// The names of the strategies: a text names one if it is one of these but for the case of ASCII
/// letters.
pub fn strategy_names() -> [&'static str; 2]
    ensures { (text : List ℕ) →
        is_ok (strategy_spelled text) ≡ list_any (λ name. is_spelled name text) (texts result) }
{
    ["dynamic", "fixed"]
}
