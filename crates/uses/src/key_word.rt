//! Calls `scheduling`: what the plan decides when a worker comes to a key.

ghost use Rattle.std.specs.Prelude.{◌≡◌, ◌<◌, ℕ, None, Some, cond};
ghost use Rattle.scheduling.specs.Choices.{admits as admits_of, taken as taken_of};

use descriptor::LockMode;
use scheduling::{LockWord, admits, taken};

/// The word of a key after it is taken in this mode, and none where it is busy, if so many nodes may hold it at once.
pub fn take_key(limit: u8, mode: LockMode, word: LockWord) -> Option<LockWord>
    requires { (n : ℕ) → word ≡ LockWord.Readers n → n < 65535 }
    ensures { result ≡ cond (admits_of limit mode word) (Some (taken_of mode word)) None }
{
    if !admits(limit, mode, word) {
        return None;
    }
    Some(taken(mode, word))
}
