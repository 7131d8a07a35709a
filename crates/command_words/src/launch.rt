//! What the arguments ask for.

use launch_options::{Options, ReportAsked};

/// What is to be run, and the reports of it that are written besides.
#[derive(Drop)]
pub struct Launch<'w> {
    pub options: Options,
    pub reports: Vec<ReportAsked<'w>>,
    /// The file that has the suite, if one is named.
    pub suite: Option<&'w str>,
}
