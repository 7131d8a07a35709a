//! Two values, where there was memory for both.

ghost use Rattle.std.specs.Prelude.{◌≡◌, ◌⊎◌, ◌↔◌, IfOk, IsErr, Ok};

use std::alloc::AllocError;

/// Both values. A function that makes several values has one exit by it, and not one for each value.
pub fn both<A: Drop, B: Drop>(
    first: Result<A, AllocError>,
    second: Result<B, AllocError>,
) -> Result<(A, B), AllocError>
    ensures first { IfOk result (λ pair. first ≡ Ok pair.0) }
    ensures second { IfOk result (λ pair. second ≡ Ok pair.1) }
    ensures refused { IsErr result ↔ (IsErr first ⊎ IsErr second) }
{
    match (first, second) {
        (Ok(first), Ok(second)) => Ok((first, second)),
        _ => Err(AllocError),
    }
}
