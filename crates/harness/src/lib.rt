//! Tests of a program's own: its functions as bodies, on a tree that it builds, run as a suite is.
#![tactic(auto)]

mod exit;
mod here;
mod job;
mod run;

pub use command_line::{Ending, is_drawn_on};
pub use descriptor::{LockMode, Mode, NodeId};
pub use exit::exit_code;
pub use here::{System, run_tests_here};
pub use job::TestJob;
pub use listeners::{Audience, Listener, Observer};
pub use plan_events::{Event, EventKind, Status, Texts};
pub use report_files::{ReportFiles, SystemFiles};
pub use resource_locks::Plan;
pub use run::run_tests;
pub use test_bodies::{Checked, Stop, TestBox, TestFn, assume, check, check_same};
pub use test_tree::{BuildFault, ClassId, EngineId, FactoryId, NamedTest, Tests, named};
pub use word_files::{Facts, SystemFacts, SystemTexts, TextFiles};
