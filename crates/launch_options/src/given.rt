//! What the arguments of a command line give the options, each value as text.

use selectors::SelectorKind;

/// The values of the options, as texts that mean nothing yet: one field for each option, but for
/// those that select or leave out, which share one numbering.
pub struct Given<'a> {
    /// `--select-unique-id`, `--select-class`, `--select-method` and `--select-package`: all of the
    /// first, then all of the next, each option's in the order of the arguments.
    pub selectors: Vec<(SelectorKind, &'a str)>,
    /// `--include-name`, numbered behind these.
    pub names: Vec<(SelectorKind, &'a str)>,
    /// `--exclude-name`, `--exclude-unique-id`, `--exclude-class`, `--exclude-method` and
    /// `--exclude-package`, numbered behind these.
    pub exclusions: Vec<(SelectorKind, &'a str)>,
    /// `--rerun`, numbered behind these.
    pub rerun: Vec<(SelectorKind, &'a str)>,
    /// `--include-tag`, in the order of the arguments, as with each that may be given again.
    pub include_tags: Vec<&'a str>,
    /// `--exclude-tag`.
    pub exclude_tags: Vec<&'a str>,
    /// `--config`.
    pub config: Vec<&'a str>,
    /// `--system`.
    pub system: Vec<&'a str>,
    /// `--report`.
    pub reports: Vec<&'a str>,
    /// `--suite`.
    pub suite: Option<&'a str>,
    /// `--processors`.
    pub processors: Option<&'a str>,
    /// `--workers`.
    pub workers: Option<&'a str>,
    /// `--ring`.
    pub ring: Option<&'a str>,
    /// `--shard`.
    pub shard: Option<&'a str>,
    /// `--seed`.
    pub seed: Option<&'a str>,
    /// `--details`.
    pub details: Option<&'a str>,
    /// `--quiet`.
    pub quiet: bool,
    /// `--details-theme`.
    pub theme: Option<&'a str>,
    /// `--replay`.
    pub replay: Option<&'a str>,
    /// `--fail-if-passed-over`.
    pub fail_if_passed_over: bool,
    /// `--drive`.
    pub drive: Option<&'a str>,
    /// `--fail-if-no-tests`.
    pub fail_if_no_tests: bool,
    /// `--fail-fast`.
    pub fail_fast: bool,
    /// `--max-fail`.
    pub max_fail: Option<&'a str>,
    /// `--most-nodes`.
    pub most_nodes: Option<&'a str>,
    /// `--schedule`.
    pub schedule: bool,
    /// `--times`.
    pub times: bool,
}

impl Drop for Given<'_> {
    fn drop(self) {
        let Given {
            selectors: _,
            names: _,
            exclusions: _,
            rerun: _,
            include_tags: _,
            exclude_tags: _,
            config: _,
            system: _,
            reports: _,
            suite: _,
            processors: _,
            workers: _,
            ring: _,
            shard: _,
            seed: _,
            details: _,
            quiet: _,
            theme: _,
            replay: _,
            fail_if_passed_over: _,
            drive: _,
            fail_if_no_tests: _,
            fail_fast: _,
            max_fail: _,
            most_nodes: _,
            schedule: _,
            times: _,
        } = self;
    }
}
