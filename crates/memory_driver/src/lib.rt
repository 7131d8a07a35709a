//! Makes calls that take memory, each twice, by lines that name them. Before a call stands a line
//! `call`, and behind it `answered`, so that who looks on from outside knows which growths are the
//! call's.
#![tactic(auto)]

mod calls;
mod inputs;
mod lists;
mod plans;
mod printer;
mod printing;
mod reading;
mod rows;
mod runs;
mod said;
mod tables;
mod values;

use crate::printer::Printer;
use crate::rows::answer;
use std::alloc::Global;
use std::io::{Result, Write};
use std::sync::Wait;
use std::thread::Threads;

/// Makes the calls that these lines name, and prints what is said of each while they go on.
///
/// # Errors
///
/// If there is no memory for what a call is given, or the writer fails.
pub fn make_calls<T: Threads + Wait + Sync, W: Write>(
    rt: &T,
    alloc: Global,
    names: &str,
    writer: &mut W,
) -> Result<()> {
    let mut out = Printer::new(writer);
    for name in names.lines() {
        answer(rt, alloc, &mut out, name)?;
    }
    out.finish()
}
