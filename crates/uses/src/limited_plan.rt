//! Calls `config_params` and `resource_locks`: as many nodes hold a lock at once as a configuration says.

ghost use Rattle.std.specs.Prelude.{◌≡◌, IfOk};
ghost use Rattle.config_params.specs.LockLimits.{limited_as_said};
ghost use Rattle.config_params.specs.Parameters.{answer_over};

use config_params::{LimitsFault, Params, lock_limits};
use resource_locks::Plan;
use std::alloc::Global;

/// A plan in which as many nodes hold a lock at once as parameters say that stand over others.
pub fn limited_by_words(
    alloc: Global,
    plan: Plan,
    over: &Params,
    under: &Params,
) -> Result<Plan, LimitsFault>
    ensures { IfOk result (λ limited. limited ≡ limited_as_said (answer_over over.now under.now) plan) }
{
    let limits = lock_limits(alloc, over, under, plan.tree())?;
    Ok(plan.with_limits(alloc, &limits)?)
}
