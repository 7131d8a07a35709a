//! What is said of values, so that two of them can be compared.

use crate::said::Said;
use config_params::Params;
use descriptor::NodeId;
use resource_locks::Plan;
use sched_core::Trace;
use suite_text::Suite;

/// The keys that a run reads.
const KEYS: [&str; 5] = [
    "junit.jupiter.execution.parallel.enabled",
    "junit.jupiter.execution.parallel.mode.default",
    "junit.jupiter.execution.parallel.mode.classes.default",
    "junit.jupiter.execution.parallel.config.strategy",
    "junit.jupiter.execution.parallel.config.fixed.parallelism",
];

/// Adds the value of each key that a run reads.
fn push_params(said: &mut Said, params: &Params) {
    for key in KEYS {
        said.add(key);
        said.quote(" ", &params.get(key));
        said.add("\n");
    }
}

/// Adds what a suite has.
pub(crate) fn push_suite(said: &mut Said, suite: &Suite) {
    said.quote("", &suite.tree);
    said.quote("\n", &suite.scripts);
    said.add("\n");
    push_params(said, &suite.properties)
}

/// Adds how a plan executes its nodes.
fn push_nodes(said: &mut Said, plan: &Plan) {
    for number in 0..plan.tree().len() {
        let node = NodeId::new(number as u16);
        said.show("", number);
        said.quote(" ", &plan.mode(node));
        said.quote(" ", plan.held(node));
        said.add("\n");
    }
}

/// Adds what a plan has.
pub(crate) fn push_plan(said: &mut Said, plan: &Plan) {
    said.quote("", plan.tree());
    said.add("\n");
    push_nodes(said, plan);
    said.show("", plan.key_count());
    said.show(" ", plan.most_events());
    said.show(" ", plan.fail_fast());
    said.add("\n")
}

/// Adds what a run by steps left.
pub(crate) fn push_trace(said: &mut Said, trace: &Trace) {
    said.quote("", &trace.published);
    said.quote("\n", &trace.given);
    said.quote("\n", &trace.mine);
    said.show("\n", trace.passed_over);
    said.add("\n")
}
