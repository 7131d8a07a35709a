//! How many workers a run may have.

ghost use Rattle.std.specs.Prelude.{◌≡◌, ◌<◌, ◌≤◌, ◌⊎◌, IfOk, IfErr};

/// The most workers of a run, and so the greatest number of a worker: they are counted from 1.
pub const MOST_WORKERS: u8 = 64;

/// Why a run may not have so many workers.
#[derive(Clone, Copy)]
pub enum CountFault {
    /// A run needs a worker.
    None,
    /// There are more than 64.
    TooMany,
}

/// The number of workers of a run, if it may have so many: from 1 to 64.
pub fn worker_count(workers: u32) -> Result<u8, CountFault>
    ensures count { IfOk result (λ count. (count ≡ workers) × (0 < count) × (count ≤ 64)) }
    ensures refused { IfErr result (λ fault. ((fault ≡ CountFault.None) × (workers ≡ 0))
        ⊎ ((fault ≡ CountFault.TooMany) × (64 < workers))) }
{
    if workers == 0 {
        Err(CountFault::None)
    } else if workers > u32::from(MOST_WORKERS) {
        Err(CountFault::TooMany)
    } else {
        Ok(workers as u8)
    }
}
