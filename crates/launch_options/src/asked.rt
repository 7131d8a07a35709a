//! The options of a run.

ghost use Rattle.launch_options.specs.Parameters.{IsRightDrive};
ghost use Rattle.launch_options.specs.Workers.{IsSpread};
ghost use Rattle.table_rule.specs.Limits.{IsRightRing};

use crate::details::Details;
use config_params::Params;
use descriptor::NodeLimit;
use run_results::Theme;
use scheduling::Step;
use selectors::Request;

/// The options of a run.
pub struct Options {
    /// What is to run: the options for selectors, which share one numbering, and those for tags.
    pub request: Request,
    /// What the request and the system say of the configuration; what the suite says of a key counts
    /// only where neither has it.
    pub params: Params,
    /// How many processors the machine is taken to have.
    pub processors: u32,
    /// How many workers `--workers` has asked for, if it is given; `params` says it too.
    pub workers: Option<u32>,
    /// With `--workers` the same as `params`, and below it that nodes are concurrent: it stands over
    /// a suite, or a program, that says no mode.
    pub spread: Option<Params>,
    /// How many events of a run on threads may be shown that were not told yet, from 1 to 16,384.
    pub ring: u32,
    /// How many nodes a suite may have besides the plan, if `--most-nodes` says it.
    pub most_nodes: Option<NodeLimit>,
    pub details: Details,
    /// The signs of the tree.
    pub theme: Theme,
    /// Whether a run without tests has a status of its own; not where a shard is asked for.
    pub fail_if_no_tests: bool,
    /// Whether a shard has that status where nothing is selected at all.
    pub fail_if_nothing_selected: bool,
    /// Whether nothing more starts once more nodes than `tolerated` have failed.
    pub fail_fast: bool,
    /// How many failures a run goes on after that fails fast; of another it says nothing.
    pub tolerated: u16,
    /// Whether the steps that led to the history of a run are printed behind its details.
    pub schedule: bool,
    /// Whether it is told how long tests took.
    pub times: bool,
    /// The steps that are run in place of the fixed schedule. Then their text alone is printed,
    /// whatever the details are.
    pub replay: Option<Vec<Step>>,
    /// Whether a replay in which a step was passed over has status 1.
    pub fail_if_passed_over: bool,
    /// How many workers run the plan by the fixed schedule, without threads, or take the steps of
    /// `replay`, if any are to: from 1 to 64. They count in place of those of the configuration.
    pub drive: Option<u32>,
    pub ghost right_ring: { IsRightRing ring },
    pub ghost right_drive: { IsRightDrive drive },
    pub ghost is_spread: { IsSpread params workers spread },
}

impl Drop for Options {
    fn drop(self) {
        let Options {
            request: _,
            params: _,
            processors: _,
            workers: _,
            spread: _,
            ring: _,
            most_nodes: _,
            details: _,
            theme: _,
            fail_if_no_tests: _,
            fail_if_nothing_selected: _,
            fail_fast: _,
            tolerated: _,
            schedule: _,
            times: _,
            replay: _,
            fail_if_passed_over: _,
            drive: _,
        } = self;
    }
}
