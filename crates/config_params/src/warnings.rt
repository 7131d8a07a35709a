//! What is wrong with a configuration that is taken all the same.

ghost use Rattle.std.specs.Prelude.{◌≡◌, map};
ghost use Rattle.config_params.specs.Settings.{keys_of};

/// Which of the two modes have a value that is no mode.
#[derive(Clone, Copy, Drop)]
pub struct Warnings {
    pub default_mode: bool,
    pub classes_mode: bool,
}

/// The keys that a warning may be about.
static KEYS: [&str; 2] = [
    "junit.jupiter.execution.parallel.mode.default",
    "junit.jupiter.execution.parallel.mode.classes.default",
];

impl Warnings {
    /// The full keys whose value is no mode, in order.
    pub fn keys(self) -> &'static [&'static str]
        ensures { map (λ key. key.now) result.now ≡ keys_of self }
    {
        let first = if self.default_mode { 0 } else { 1 };
        let end = if self.classes_mode { 2 } else { 1 };
        &KEYS[first..end]
    }
}
