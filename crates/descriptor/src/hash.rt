//! The hash of a text.

ghost use Rattle.std.specs.Prelude.{◌≡◌};
ghost use Rattle.descriptor.specs.Inside.Hashes.{hash_of};

use std::hash::{BuildHasher, BuildHasherDefault, FoldHasher};

/// The hash of a text. Texts that are not equal seldom have the same.
pub(crate) fn hash_of(text: &str) -> u64
    ensures { result ≡ hash_of text.now }
{
    BuildHasherDefault::<FoldHasher>::new().hash_one(text)
}
