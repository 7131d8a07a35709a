//! Which call a line names.

use crate::inputs::{PAIR, SHOP};
use crate::lists::{of_two, prepares, prepares_two};
use crate::plans::{copy, drives, hoists, mode, takes_steps};
use crate::printer::Printer;
use crate::printing::{Print, Schedules, looks_back};
use crate::reading::{find, parse};
use crate::runs::run_twice;
use crate::tables::table;
use listeners::Recorder;
use run_results::Summary;
use std::alloc::{AllocError, Global};
use std::io::Write;
use std::sync::Wait;
use std::thread::Threads;

/// A call that leaves what it is given as it was, and reads what happened.
fn once_back<W: Write>(alloc: Global, out: &mut Printer<W>, name: &str) -> Result<(), AllocError> {
    match name {
        "schedule_of" => looks_back(alloc, out, Schedules),
        "feed_text" => looks_back(alloc, out, Print::Feed),
        "tree_text" => looks_back(alloc, out, Print::Tree),
        "summary_text" => looks_back(alloc, out, Print::Summary),
        _ => {
            out.print("no such call\n");
            Ok(())
        }
    }
}

/// A call that leaves what it is given as it was.
fn once<W: Write>(alloc: Global, out: &mut Printer<W>, name: &str) -> Result<(), AllocError> {
    match name {
        "Suite::parse" => {
            parse(alloc, out);
            Ok(())
        }
        "discover" => find(alloc, out),
        "modes" => mode(alloc, out),
        "hoist" => hoists(alloc, out),
        "Plan::copy" => copy(alloc, out),
        "drive" => drives(alloc, out),
        "run_steps" => takes_steps(alloc, out),
        "Audience::new" => of_two(alloc, out, None),
        _ => once_back(alloc, out, name),
    }
}

/// Makes the call that a line names, twice, and says what was answered.
pub(crate) fn answer<T: Threads + Wait + Sync, W: Write>(
    rt: &T,
    alloc: Global,
    out: &mut Printer<W>,
    name: &str,
) -> Result<(), AllocError> {
    match name {
        "Recorder::prepare" => prepares(alloc, out, Recorder::new(alloc)),
        "Summary::prepare" => prepares(alloc, out, Summary::new(alloc)),
        "Audience::prepare" => prepares_two(alloc, out),
        "RunTable::prepare" => table(alloc, out),
        "run_plan" => run_twice(rt, alloc, out, PAIR, 2),
        "run_plan by eight" => run_twice(rt, alloc, out, SHOP, 8),
        "run_plan by twelve" => run_twice(rt, alloc, out, SHOP, 12),
        _ => {
            once(alloc, out, name)?;
            once(alloc, out, name)
        }
    }
}
