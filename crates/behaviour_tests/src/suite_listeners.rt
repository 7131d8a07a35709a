//! A listener that is handed to the run of a suite is told its events, though nobody has prepared it.

use crate::program::{SUITE, feed_options};
use job_times::{NoStopwatch, RunTimes, Timings};
use launcher::{Launched, ScriptedJob, launch_text};
use listeners::{Audience, Listener, Recorder};
use pool_tests::push_events;
use std::alloc::Global;
use std::sync::Wait;
use std::thread::Threads;

/// Whether an audience is told each event of a suite's run.
fn hears<T: Threads + Wait + Sync>(rt: &T, alloc: Global, audience: &mut Audience) -> Option<bool> {
    let mut reader = SUITE.as_bytes();
    let mut writer = Vec::new(alloc);
    let stopwatch = NoStopwatch;
    let mut times = RunTimes::new(&stopwatch, Timings::none(alloc));
    let options = feed_options(alloc);
    let launched: Launched<ScriptedJob> = launch_text(
        rt,
        alloc,
        &options,
        &mut reader,
        &mut writer,
        audience,
        &mut times,
    );
    launched.answer.ok()?;
    let mut told = String::new(alloc);
    push_events(&mut told, audience.got(0)?);
    Some(told.as_str() == "+0 +1 +2 +3 -3 -2 -1 -0 ")
}

/// Whether a recorder is told them.
pub(crate) fn a_listener_is_told_of_the_run_of_a_suite<T: Threads + Wait + Sync>(
    rt: &T,
    alloc: Global,
) -> Option<bool> {
    let mut listeners: Vec<Box<dyn Listener>> = Vec::new(alloc);
    listeners
        .push(Box::new(alloc, Recorder::new(alloc)).ok()?)
        .ok()?;
    let mut audience = Audience::new(listeners).ok()?;
    hears(rt, alloc, &mut audience)
}
