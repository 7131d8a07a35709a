//! What a launch is asked for, read from the values of its options, and why it is refused.
#![tactic(auto)]

mod asked;
mod details;
mod failures;
mod fault;
mod given;
mod judged;
mod most_nodes;
pub mod option_names;
mod options;
mod parameters;
mod reports;
mod seeds;
mod setting_keys;
mod shards;
mod themes;
mod workers;

pub use asked::Options;
pub use details::Details;
pub use failures::max_fail_named;
pub use fault::{CutCause, CutOutput, LaunchFault, RefusedSelector};
pub use given::Given;
pub use most_nodes::most_nodes_named;
pub use parameters::{drive_named, processors_named, ring_named};
pub use reports::{ReportAsked, report_in};
pub use seeds::seed_named;
pub use setting_keys::{key_judged, strategy_names};
pub use shards::shard_named;
pub use themes::{theme_names, theme_of};
pub use workers::{has_long_key, workers_named};
