//! The settings of a run.

ghost use Rattle.std.specs.Prelude.{◌≡◌, ◌≤◌, IfOk};
ghost use Rattle.config_params.specs.Settings.{settings_of};
ghost use Rattle.ready_runs.specs.Ready.{driven_by};
ghost use Rattle.launch_options.specs.Workers.{answer_with};

use config_params::{Params, Settings, SettingsFault};
use launch_options::Options;

/// The settings of the configuration where a suite, or a program, has these properties.
fn settings_read(options: &Options, properties: &Params) -> Result<Settings, SettingsFault>
    ensures exact { result ≡ settings_of (answer_with options.now.workers options.now.params properties.now)
        options.now.processors }
    ensures some { IfOk result (λ settings. 1 ≤ settings.workers) }
{
    let over = options.params_over(properties);
    Settings::read_over(over, properties, options.processors)
}

/// The settings of a run whose suite, or whose program, has these properties; with `--drive` as many
/// workers count as it asks for.
pub(crate) fn settings_over(
    options: &Options,
    properties: &Params,
) -> Result<Settings, SettingsFault>
    ensures exact { result ≡ driven_by options.now.drive
        (settings_of (answer_with options.now.workers options.now.params properties.now) options.now.processors) }
    ensures some { IfOk result (λ settings. 1 ≤ settings.workers) }
{
    let settings = settings_read(options, properties)?;
    match options.drive {
        Some(workers) => Ok(Settings {
            workers,
            ..settings
        }),
        None => Ok(settings),
    }
}
