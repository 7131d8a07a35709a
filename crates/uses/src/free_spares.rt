//! Calls `never_stuck` and `resource_locks`: a plan is asked whether it can get stuck.

ghost use Rattle.std.specs.Prelude.{◌≡◌, true};
ghost use Rattle.never_stuck.specs.Reaching.{NeverStuck};

use never_stuck::never_stuck;
use resource_locks::Plan;

/// Whether it is proved of a plan that it never gets stuck, whatever its workers do.
pub fn never_gets_stuck(plan: &Plan) -> bool
    ensures { result ≡ true → NeverStuck plan.now }
{
    never_stuck();
    // the contract of `tree` tells that it is a plan
    let _ = plan.tree();
    plan.has_free_spares()
}
