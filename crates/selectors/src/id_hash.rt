//! A hash of a text that stays what it is.

ghost use Rattle.std.specs.Prelude.{◌≡◌};
ghost use Rattle.selectors.specs.Hashes.{hash_of};

/// What the hash of no bytes is.
const START: u64 = 0xcbf2_9ce4_8422_2325;

/// What the hash is multiplied by for each byte.
const FACTOR: u64 = 0x100_0000_01b3;

/// The hash of a text by FNV-1a of 64 bits.
#[tactic(auto, unfolding(crate::specs::Hashes::hash_of))]
pub(crate) fn hash_of(text: &[u8]) -> u64
    ensures { result ≡ hash_of text.now }
{
    let mut hash = START;
    for byte in text {
        hash ^= u64::from(*byte);
        hash = hash.wrapping_mul(FACTOR);
    }
    hash
}
