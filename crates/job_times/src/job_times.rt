//! A stopwatch that reads a clock.

use crate::stopwatch::Stopwatch;
use descriptor::BodyId;
use std::alloc::{AllocError, Global};
use std::sync::OnceLock;
use std::time::Clock;

/// How many microseconds a second has.
const MICROSECONDS: u64 = 1_000_000;

/// What is known of a job. Each is written once, by any thread.
#[derive(Drop)]
struct JobCell {
    // in microseconds of the clock
    begun: OnceLock<u64>,
    ended: OnceLock<u64>,
    // in milliseconds
    limit: OnceLock<u32>,
}

impl JobCell {
    /// The cell of a job of which nothing is known yet.
    fn new() -> JobCell {
        JobCell {
            begun: OnceLock::new(),
            ended: OnceLock::new(),
            limit: OnceLock::new(),
        }
    }

    /// For how many microseconds the job ran, if it has begun and ended; 0 if the clock went back.
    fn took(&self) -> Option<u64> {
        let begun = self.begun.get()?;
        let ended = self.ended.get()?;
        Some(ended.saturating_sub(*begun))
    }

    /// When the job began, if it has begun and not ended.
    fn running_since(&self) -> Option<u64> {
        if self.ended.get().is_some() {
            return None;
        }
        let begun = self.begun.get()?;
        Some(*begun)
    }
}

/// The cells of a node: that of its body, and that of its after-body.
#[derive(Drop)]
struct NodeCells {
    body: JobCell,
    after: JobCell,
}

/// Takes note of times by a clock, which may go back or fail: what was not read is not known. It has no cells, and
/// reads no clock, until somebody asks for times or sets a limit. A suite and a program's own tests give bodies the
/// numbers of their nodes, and after-bodies those behind the greatest number of a node.
pub struct JobTimes<'c, C: Clock> {
    alloc: Global,
    // so many nodes have cells
    nodes: usize,
    // those of each node from 0; none before they are made, or where there was no memory
    cells: OnceLock<Vec<NodeCells>>,
    clock: &'c C,
}

impl<'c, C: Clock> Drop for JobTimes<'c, C> {
    fn drop(self) {
        let Self {
            alloc: _,
            nodes: _,
            cells,
            clock: _,
        } = self;
        drop(cells);
    }
}

/// The cells of so many nodes.
fn cells_for(alloc: Global, nodes: usize) -> Result<Vec<NodeCells>, AllocError> {
    let mut cells = Vec::with_capacity(alloc, nodes)?;
    for _node in 0..nodes {
        cells.push(NodeCells {
            body: JobCell::new(),
            after: JobCell::new(),
        })?;
    }
    Ok(cells)
}

impl<'c, C: Clock> JobTimes<'c, C> {
    /// Nothing is known of any job, and no note is taken; later it may be of the jobs of so many nodes, the plan
    /// included.
    pub fn off(alloc: Global, clock: &'c C, nodes: usize) -> JobTimes<'c, C> {
        JobTimes {
            alloc,
            nodes,
            cells: OnceLock::new(),
            clock,
        }
    }

    /// From now on note is taken of each job, if there is memory for it. Of the jobs of nodes behind those that it was
    /// made for nothing is ever known.
    pub fn turn_on(&self) {
        if self.cells.get().is_some() {
            return;
        }
        if let Ok(cells) = cells_for(self.alloc, self.nodes) {
            let _ = self.cells.try_set(cells);
        }
    }

    /// For how many microseconds the job of this number has been running, if it has begun and not ended.
    pub fn running_for(&self, number: BodyId) -> Option<u64> {
        let begun = self.cell(number)?.running_since()?;
        Some(self.now()?.saturating_sub(begun))
    }

    /// How many milliseconds the job of this number may run before it is slow, if it has a limit.
    pub fn limit(&self, number: BodyId) -> Option<u32> {
        let limit = self.cell(number)?.limit.get()?;
        Some(*limit)
    }

    /// What is known of the job of this number, if it has a cell.
    fn cell(&self, number: BodyId) -> Option<&JobCell> {
        let cells = self.cells.get()?;
        match number.after_of() {
            Some(node) => Some(&cells.get(node.index())?.after),
            None => Some(&cells.get(number.index())?.body),
        }
    }

    /// The microseconds that the clock shows, if it can be read.
    fn now(&self) -> Option<u64> {
        let time = self.clock.monotonic().ok()?;
        let microseconds = u64::from(time.subsec_micros());
        let whole = time.as_secs().saturating_mul(MICROSECONDS);
        Some(whole.saturating_add(microseconds))
    }

    /// Writes down what the clock shows, unless something is written there.
    fn note(&self, place: &OnceLock<u64>) {
        if let Some(now) = self.now() {
            let _ = place.try_set(now);
        }
    }
}

impl<'c, C: Clock> Stopwatch for JobTimes<'c, C> {
    fn begin(&self, number: BodyId) {
        if let Some(cell) = self.cell(number) {
            self.note(&cell.begun);
        }
    }

    fn end(&self, number: BodyId) {
        if let Some(cell) = self.cell(number) {
            self.note(&cell.ended);
        }
    }

    fn took(&self, number: BodyId) -> Option<u64> {
        self.cell(number)?.took()
    }

    fn set_limit(&self, number: BodyId, milliseconds: u32) {
        self.turn_on();
        if let Some(cell) = self.cell(number) {
            let _ = cell.limit.try_set(milliseconds);
        }
    }
}
