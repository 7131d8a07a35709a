//! A report on its way to its writer.

use launch_options::{CutCause, Details};
use std::io::Write;

/// How the writing of a report went.
#[derive(Clone, Copy)]
pub enum Outcome {
    /// Nothing was written yet.
    Waiting,
    /// All of it was written.
    Whole,
    /// Its writer failed; or there was no memory for it, and nothing was written.
    Cut(CutCause),
}

/// A report: its form, the writer that gets it, and how that went.
#[derive(Drop)]
pub struct Report<F: Write + Drop> {
    pub form: Details,
    pub file: F,
    pub outcome: Outcome,
}
