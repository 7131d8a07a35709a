//! Reports of a run that is over: what each holds, and the files that they are kept in.
#![tactic(auto)]

mod beside;
mod ending;
mod keeper;
mod opening;
mod report;
mod run_report;
mod system_files;

pub use beside::Beside;
pub use ending::{answer_with, end_all};
pub use keeper::ReportFiles;
pub use opening::open_wanted;
pub use report::{Outcome, Report};
pub use run_report::report_run;
pub use system_files::{ReportFile, SystemFiles};
