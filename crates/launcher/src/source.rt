//! What is launched: a program with jobs of its own, or the suite that a reader holds.

ghost use Rattle.job_times.specs.Timings.{times_of};
ghost use Rattle.launch_options.specs.Asked.{asked_by};
ghost use Rattle.launcher.specs.Launches.{Sees};
ghost use Rattle.launcher.specs.Sources.{Launches, MayLaunch};

use crate::launched::Launched;
use crate::program::Program;
use crate::program_launch::launch_program;
use crate::suite_launch::launch_text;
use crate::timed_place::bare_places;
use job_times::{RunTimes, Stopwatch};
use launch_options::Options;
use listeners::Observer;
use plan_events::Job;
use std::alloc::Global;
use std::io::{Read, Write};
use std::sync::Wait;
use std::thread::Threads;

/// What is launched.
#[derive(Drop)]
pub enum LaunchSource<B> {
    /// The suite that is left of the reader.
    Text,
    /// A program, which reads nothing, with jobs that need no place.
    Program(Program<B>),
}

impl<B> LaunchSource<B> {
    /// How many nodes it has at most.
    pub fn most_nodes(&self, options: &Options) -> usize {
        match self {
            LaunchSource::Text => options.tree_limit(),
            LaunchSource::Program(program) => program.tree.len(),
        }
    }
}

/// Launches a suite or a program, and shows the run to whoever watches.
pub fn launch_source<
    B: Job + Send,
    T: Threads + Wait + Sync,
    R: Read,
    W: Write,
    V: Observer,
    S: Stopwatch + Sync,
>(
    rt: &T,
    alloc: Global,
    options: &Options,
    source: LaunchSource<B>,
    reader: &mut R,
    writer: &mut W,
    observer: &mut V,
    times: &mut RunTimes<'_, S>,
) -> Launched<B>
    requires may { MayLaunch B.answers source }
    ensures launched { Launches B.answers B.gives B.says source (asked_by options.now) (times_of times.new.timings)
        (R.remaining reader.old) (R.remaining reader.new) (W.contents writer.old) (W.contents writer.new) result.ran
        result.answer }
    ensures seen { Sees V.saw observer.old observer.new result.ran }
{
    match source {
        LaunchSource::Text => launch_text(rt, alloc, options, reader, writer, observer, times),
        LaunchSource::Program(program) => {
            let places = bare_places();
            let places = places.as_slice();
            launch_program(rt, alloc, options, program, places, writer, observer, times)
        }
    }
}
