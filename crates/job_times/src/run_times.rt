//! The times of a run, and the stopwatch that they are noted from.

ghost use Rattle.std.specs.Prelude.{◌≡◌, IfOk, OnOk, OnErr, replicate};
ghost use Rattle.job_times.specs.Timings.{times_of, times_asked, with_places, without_stamp};
ghost use Rattle.job_times.specs.declared.timings.Noted.TheVariants.{NotYet};

use crate::stopwatch::Stopwatch;
use crate::timings::{Noted, Timings};
use std::alloc::{AllocError, Global};

/// The one table of times that all outputs of a run share, and the stopwatch that it is written from. Each time is
/// written once.
#[derive(Drop)]
pub struct RunTimes<'s, S: Stopwatch> {
    pub stopwatch: &'s S,
    pub timings: Timings,
}

/// A place for each of so many nodes, where nothing is noted yet.
fn places(alloc: Global, nodes: usize) -> Result<Vec<Noted>, AllocError>
    ensures { IfOk result (λ took. took.items ≡ replicate nodes NotYet) }
{
    vec![in alloc; Noted::NotYet; nodes]
}

impl<'s, S: Stopwatch> RunTimes<'s, S> {
    /// The times that a run is to note by this stopwatch, beside what these timings know.
    pub fn new(stopwatch: &'s S, timings: Timings) -> RunTimes<'s, S>
        ensures stopwatch { result.stopwatch ≡ stopwatch.entry }
        ensures timings { result.timings ≡ timings }
    {
        RunTimes { stopwatch, timings }
    }

    /// Makes a place for each of so many nodes, where nothing is noted yet, if times are asked for; else nothing is
    /// known any more. For want of memory all is as before.
    pub fn prepare(&mut self, alloc: Global, is_asked: bool, nodes: usize) -> Result<(), AllocError>
        ensures ok { OnOk result (times_of self.new.timings
            ≡ times_asked is_asked (with_places nodes (times_of self.old.timings))) }
        ensures err { OnErr result (times_of self.new.timings ≡ times_of self.old.timings) }
        ensures stopwatch { self.new.stopwatch ≡ self.old.stopwatch }
    {
        if !is_asked {
            self.timings = Timings::none(alloc);
            return Ok(());
        }
        self.timings.took = places(alloc, nodes)?;
        Ok(())
    }

    /// Forgets when the run began, and on which machine.
    pub fn unstamp(&mut self)
        ensures timings { times_of self.new.timings ≡ without_stamp (times_of self.old.timings) }
        ensures stopwatch { self.new.stopwatch ≡ self.old.stopwatch }
    {
        self.timings.moment = None;
        self.timings.host = None;
    }
}
