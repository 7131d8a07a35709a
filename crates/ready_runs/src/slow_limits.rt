//! From when on the tests of a run are slow, which its stopwatch is told before the run.

use descriptor::{BodyId, NodeId};
use job_times::Stopwatch;
use resource_locks::Plan;
use suite_text::Script;

/// Tells a stopwatch what the lines of a suite say of their bodies.
pub fn set_script_limits<S: Stopwatch>(stopwatch: &S, scripts: &[Script]) {
    for script in scripts {
        if let Some(limit) = script.slow {
            stopwatch.set_limit(script.body, limit);
        }
    }
}

/// Tells a stopwatch from how many milliseconds on the bodies of these numbers are slow.
pub fn set_limits<S: Stopwatch>(stopwatch: &S, limits: &[(BodyId, u32)]) {
    for limit in limits {
        stopwatch.set_limit(limit.0, limit.1);
    }
}

/// Tells a stopwatch what the configuration says of each test of a plan, if it says anything. A test of which more was
/// told before keeps that, since the first limit of a body stays.
pub fn set_default_limits<S: Stopwatch>(stopwatch: &S, plan: &Plan, limit: Option<u32>) {
    let Some(limit) = limit else {
        return;
    };
    let tree = plan.tree();
    for number in 1..tree.len() {
        let node = NodeId::new(number as u16);
        if tree.kind(node).is_container() {
            continue;
        }
        if let Some(body) = tree.body(node) {
            stopwatch.set_limit(body, limit);
        }
    }
}
