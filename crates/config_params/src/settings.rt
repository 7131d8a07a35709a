//! What a configuration asks of a run.

ghost use Rattle.std.specs.Prelude.{◌≡◌, ◌≤◌, IfOk, false};
ghost use Rattle.config_params.specs.Parameters.{answer, answer_over};
ghost use Rattle.config_params.specs.Settings.{settings_of, is_enabled, mode_spelled, mode_named, mode_or};
ghost use Rattle.config_params.specs.Settings.{is_no_mode, enabled_key};

use crate::blanks::{Blanks, without_ends};
use crate::params::{Params, get_over};
use crate::settings_fault::SettingsFault;
use crate::slow::slow_of;
use crate::strategy::workers_of;
use crate::warnings::Warnings;
use descriptor::Mode;

const ENABLED: &str = "junit.jupiter.execution.parallel.enabled";

const DEFAULT_MODE: &str = "junit.jupiter.execution.parallel.mode.default";

const CLASSES_MODE: &str = "junit.jupiter.execution.parallel.mode.classes.default";

/// What a configuration asks of a run.
#[derive(Clone, Copy, Drop)]
pub struct Settings {
    /// Whether nodes may run side by side.
    pub parallel: bool,
    /// How many workers there are, 1 where nothing runs side by side.
    pub workers: u32,
    /// The mode of other nodes that have none of their own.
    pub default_mode: Mode,
    /// The mode of children of engines that have none of their own.
    pub classes_mode: Mode,
    /// From how many milliseconds on a test is slow whose own line does not say it.
    pub slow: Option<u32>,
    pub warnings: Warnings,
}

fn is_enabled(over: &Params, under: &Params) -> bool
    ensures { result ≡ is_enabled (answer_over over.now under.now enabled_key) }
{
    match get_over(over, under, ENABLED) {
        Some(value) => value.eq_ignore_ascii_case("true"),
        None => false,
    }
}

/// The mode that a value names.
fn mode_named(value: &str) -> Option<Mode>
    ensures { result ≡ mode_named value.now }
{
    let name = without_ends(Blanks::Spaces, value);
    if name.eq_ignore_ascii_case("same_thread") {
        return Some(Mode::SameThread);
    }
    if name.eq_ignore_ascii_case("concurrent") {
        return Some(Mode::Concurrent);
    }
    None
}

/// The mode that a key has, or else the default, and whether its value is no mode.
fn mode_at(over: &Params, under: &Params, key: &str, default: Mode) -> (Mode, bool)
    ensures mode { result.0 ≡ mode_or default (answer_over over.now under.now key.now) }
    ensures warning { result.1 ≡ is_no_mode (answer_over over.now under.now key.now) }
{
    let Some(value) = get_over(over, under, key) else {
        return (default, false);
    };
    match mode_named(value) {
        Some(mode) => (mode, false),
        None => (default, true),
    }
}

impl Settings {
    /// What the parameters ask for, with so many processors. Refusals: 37 for milliseconds that are
    /// none; then, only where parallel execution is enabled, 34 for an unknown strategy, 32 for the
    /// number of the fixed one, 33 for the factor of the dynamic one.
    pub fn read(params: &Params, processors: u32) -> Result<Settings, SettingsFault>
        ensures exact { result ≡ settings_of (answer params.now) processors }
        // Where parallel execution is not enabled, one worker takes every node in its turn.
        ensures off { IfOk result (λ s. s.parallel ≡ false → (s.workers ≡ 1) × (s.default_mode ≡ Mode.SameThread)
            × (s.classes_mode ≡ Mode.SameThread)) }
        ensures some { IfOk result (λ s. 1 ≤ s.workers) }
    {
        Settings::read_over(params, params, processors)
    }

    /// What parameters ask for that stand over others: of each key their value counts, and where they
    /// have none that of the others. Takes no memory; all else is as `read` says.
    pub fn read_over(
        over: &Params,
        under: &Params,
        processors: u32,
    ) -> Result<Settings, SettingsFault>
        ensures exact { result ≡ settings_of (answer_over over.now under.now) processors }
        // Where parallel execution is not enabled, one worker takes every node in its turn.
        ensures off { IfOk result (λ s. s.parallel ≡ false → (s.workers ≡ 1) × (s.default_mode ≡ Mode.SameThread)
            × (s.classes_mode ≡ Mode.SameThread)) }
        ensures some { IfOk result (λ s. 1 ≤ s.workers) }
    {
        let slow = slow_of(over, under)?;
        let (default_mode, bad_default) = mode_at(over, under, DEFAULT_MODE, Mode::SameThread);
        let (classes_mode, bad_classes) = mode_at(over, under, CLASSES_MODE, default_mode);
        let warnings = Warnings {
            default_mode: bad_default,
            classes_mode: bad_classes,
        };
        if !is_enabled(over, under) {
            return Ok(Settings {
                parallel: false,
                workers: 1,
                default_mode: Mode::SameThread,
                classes_mode: Mode::SameThread,
                slow,
                warnings,
            });
        }
        Ok(Settings {
            parallel: true,
            workers: workers_of(over, under, processors)?,
            default_mode,
            classes_mode,
            slow,
            warnings,
        })
    }
}
