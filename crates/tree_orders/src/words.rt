//! The words of a seed.

ghost use Rattle.std.specs.Prelude.{◌≡◌, ◌≤◌, ◌<◌, ℕ, length, slice_index, IfOk};
ghost use Rattle.tree_orders.specs.Draws.{word_of};

use rand_chacha::ChaCha20Rng;
use rand_core::SeedableRng;
use rand_core::utils::NextWord;
use std::alloc::{AllocError, Global};

/// The first words of ChaCha20 with this seed, so many of them.
pub(crate) fn words(alloc: Global, seed: u64, count: usize) -> Result<Vec<u32>, AllocError>
    requires { count ≤ 16384 }
    ensures counted { IfOk result (λ words. length words.items ≡ count) }
    ensures each { IfOk result (λ words. (k : ℕ) → k < count → slice_index words.items k ≡ word_of seed k) }
{
    let mut rng = ChaCha20Rng::seed_from_u64(seed);
    let mut words = Vec::with_capacity(alloc, count)?;
    while words.len() < count {
        words.push(rng.next_word())?;
    }
    Ok(words)
}
