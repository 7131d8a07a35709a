//! The names of the options of a command line, without the two dashes.

pub const SELECT_UNIQUE_ID: &str = "select-unique-id";

pub const SELECT_CLASS: &str = "select-class";

pub const SELECT_METHOD: &str = "select-method";

pub const SELECT_PACKAGE: &str = "select-package";

pub const INCLUDE_NAME: &str = "include-name";

pub const EXCLUDE_NAME: &str = "exclude-name";

pub const EXCLUDE_UNIQUE_ID: &str = "exclude-unique-id";

pub const EXCLUDE_CLASS: &str = "exclude-class";

pub const EXCLUDE_METHOD: &str = "exclude-method";

pub const EXCLUDE_PACKAGE: &str = "exclude-package";

pub const RERUN: &str = "rerun";

pub const INCLUDE_TAG: &str = "include-tag";

pub const EXCLUDE_TAG: &str = "exclude-tag";

pub const SUITE: &str = "suite";

pub const CONFIG: &str = "config";

pub const SYSTEM: &str = "system";

pub const PROCESSORS: &str = "processors";

pub const WORKERS: &str = "workers";

pub const RING: &str = "ring";

pub const SHARD: &str = "shard";

pub const SEED: &str = "seed";

pub const DETAILS: &str = "details";

pub const DETAILS_THEME: &str = "details-theme";

pub const QUIET: &str = "quiet";

pub const REPORT: &str = "report";

pub const FAIL_IF_NO_TESTS: &str = "fail-if-no-tests";

pub const FAIL_FAST: &str = "fail-fast";

pub const MAX_FAIL: &str = "max-fail";

pub const MOST_NODES: &str = "most-nodes";

pub const SCHEDULE: &str = "schedule";

pub const TIMES: &str = "times";

pub const REPLAY: &str = "replay";

pub const FAIL_IF_PASSED_OVER: &str = "fail-if-passed-over";

pub const DRIVE: &str = "drive";
