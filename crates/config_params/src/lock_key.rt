//! The keys of the configuration that limit locks.

ghost use Rattle.std.specs.Prelude.{◌≡◌};
ghost use Rattle.std.specs.Option.{option_map};
ghost use Rattle.config_params.specs.LockKeys.{lock_limited, lock_before_end};

const FRONT: &str = "nelborugy.lock.";

const END: &str = ".holders";

/// The lock whose number of holders a key of the configuration says, if it says one:
/// `nelborugy.lock.LOCK.holders`.
pub fn lock_limited(key: &str) -> Option<&str>
    ensures { option_map (λ lock. lock.now) result ≡ lock_limited key.now }
{
    match key.strip_prefix(FRONT) {
        Some(rest) => lock_before_end(rest),
        None => None,
    }
}

/// What is left of a text without the end of such a key, if that ends it.
fn lock_before_end(rest: &str) -> Option<&str>
    ensures { option_map (λ lock. lock.now) result ≡ lock_before_end rest.now }
{
    rest.strip_suffix(END)
}
