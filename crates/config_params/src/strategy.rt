//! How many workers a parallel run has.

ghost use Rattle.std.specs.Prelude.{◌≡◌, ◌≤◌, ◌<◌, IfOk};
ghost use Rattle.config_params.specs.Parameters.{answer_over};
ghost use Rattle.config_params.specs.Settings.{strategy_of, fixed_workers, factor_of, scaled, workers_of};
ghost use Rattle.config_params.specs.Settings.{strategy_key, parallelism_key, factor_key};

use crate::blanks::{Blanks, without_ends};
use crate::numbers::{factor_in, parallelism_in};
use crate::params::{Params, get_over};
use crate::settings_fault::SettingsFault;
use plan_events::MOST_WORKERS;

const STRATEGY: &str = "junit.jupiter.execution.parallel.config.strategy";

const PARALLELISM: &str = "junit.jupiter.execution.parallel.config.fixed.parallelism";

const FACTOR: &str = "junit.jupiter.execution.parallel.config.dynamic.factor";

/// How the number of workers is found.
#[derive(Clone, Copy, Drop)]
pub(crate) enum Strategy {
    /// A number of workers for each processor.
    Dynamic,
    /// A number of workers in all.
    Fixed,
}

fn strategy_of(over: &Params, under: &Params) -> Result<Strategy, SettingsFault>
    ensures { result ≡ strategy_of (answer_over over.now under.now strategy_key) }
{
    let Some(value) = get_over(over, under, STRATEGY) else {
        return Ok(Strategy::Dynamic);
    };
    let name = without_ends(Blanks::Spaces, value);
    if name.eq_ignore_ascii_case("dynamic") {
        return Ok(Strategy::Dynamic);
    }
    if name.eq_ignore_ascii_case("fixed") {
        return Ok(Strategy::Fixed);
    }
    Err(SettingsFault::BadStrategy)
}

fn fixed_workers(over: &Params, under: &Params) -> Result<u32, SettingsFault>
    ensures { result ≡ fixed_workers (answer_over over.now under.now parallelism_key) }
{
    let Some(value) = get_over(over, under, PARALLELISM) else {
        return Err(SettingsFault::BadParallelism);
    };
    parallelism_in(value).ok_or(SettingsFault::BadParallelism)
}

/// The factor of the dynamic strategy, in ten-thousandths.
fn factor_of(over: &Params, under: &Params) -> Result<u64, SettingsFault>
    ensures { result ≡ factor_of (answer_over over.now under.now factor_key) }
{
    let Some(value) = get_over(over, under, FACTOR) else {
        return Ok(10_000);
    };
    factor_in(value).ok_or(SettingsFault::BadFactor)
}

/// So many ten-thousandths of a worker for each processor, cut to a whole number from 1 to 64.
fn scaled(processors: u32, factor: u64) -> u32
    ensures { result ≡ scaled processors factor }
{
    let workers = processors as u128 * factor as u128 / 10_000;
    workers.min(u128::from(MOST_WORKERS)).max(1) as u32
}

/// The workers of a parallel run. Refusals: 34, then 32 or 33, which the strategy decides.
pub(crate) fn workers_of(
    over: &Params,
    under: &Params,
    processors: u32,
) -> Result<u32, SettingsFault>
    ensures { result ≡ workers_of (answer_over over.now under.now) processors }
{
    match strategy_of(over, under)? {
        Strategy::Dynamic => Ok(scaled(processors, factor_of(over, under)?)),
        Strategy::Fixed => fixed_workers(over, under),
    }
}
