//! What no row of a table can say: of values, by value_tests, of runs on threads, by pool_tests, and of a suite's run
//! whose reader or writer fails. For each there is a function that answers whether what its name says holds;
//! program_tables has the names printed with the answers.
#![tactic(auto)]

mod behaviours;
mod program;
mod suite_listeners;

use crate::behaviours::holds;
use std::alloc::Global;
use std::io::{Result, Write};
use std::sync::Wait;
use std::thread::Threads;

/// Prints each line of a text with its answer: whether what this name says holds.
///
/// # Errors
///
/// If the writer fails.
pub fn print_behaviours<T: Threads + Wait + Sync, W: Write>(
    rt: &T,
    alloc: Global,
    text: &str,
    writer: &mut W,
) -> Result<()> {
    for name in text.lines() {
        let said = match holds(rt, alloc, name) {
            Some(true) => "holds",
            Some(false) => "does not hold",
            None => "is not known, or nothing could be built for it",
        };
        writer.write_fmt(format_args!("{name} => {said}\n"))?;
    }
    Ok(())
}
