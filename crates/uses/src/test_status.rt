//! Calls `test_bodies`: a test function is run.

ghost use Rattle.std.specs.Prelude.{◌≡◌, Result};
ghost use Rattle.plan_events.specs.declared.outcome.Outcome.{Outcome};
ghost use Rattle.test_bodies.specs.Stops.{outcome_of};

use plan_events::Status;
use std::alloc::Global;
use test_bodies::{Body, TestFn};

/// How this function ends: as what it answered.
pub fn status_of(alloc: Global, run: TestFn) -> Status
    requires { TestFn.IsAlwaysCallable run }
    ensures { (answer : Result (Unit {0}) Outcome) × TestFn.post run alloc answer × (result ≡ (outcome_of answer).status) }
{
    let mut body = Body::of_function(alloc, run);
    body.finish().status
}
