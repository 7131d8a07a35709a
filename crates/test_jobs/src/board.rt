//! What the jobs and the listener of a run share.

use std::alloc::{AllocError, Global};
use std::sync::atomic::{AtomicBool, AtomicU64, Ordering};

/// A flag for each of the first nodes, how many jobs are at work, how often a job was asked for a
/// dynamic test, how often counted jobs were run, how many bytes of texts the listener was told, and
/// whether a body began too early.
#[derive(Drop)]
pub struct Board {
    flags: Vec<AtomicBool>,
    at_work: AtomicU64,
    asked: AtomicU64,
    runs: AtomicU64,
    heard: AtomicU64,
    early: AtomicBool,
}

impl Board {
    /// A board with so many flags, none of which is set.
    pub fn new(alloc: Global, flags: usize) -> Result<Board, AllocError> {
        let mut board = Board {
            flags: Vec::new(alloc),
            at_work: AtomicU64::new(0),
            asked: AtomicU64::new(0),
            runs: AtomicU64::new(0),
            heard: AtomicU64::new(0),
            early: AtomicBool::new(false),
        };
        for _flag in 0..flags {
            board.flags.push(AtomicBool::new(false))?;
        }
        Ok(board)
    }

    /// Sets the flag of a node, if it has one.
    pub fn set(&self, node: usize) {
        if let Some(flag) = self.flags.get(node) {
            flag.store(true, Ordering::SeqCst);
        }
    }

    /// Whether the flag of a node is set.
    pub fn is_set(&self, node: usize) -> bool {
        match self.flags.get(node) {
            Some(flag) => flag.load(Ordering::SeqCst),
            None => false,
        }
    }

    /// One job more is at work; how many there were before.
    pub(crate) fn begin(&self) -> u64 {
        self.at_work.fetch_add(1, Ordering::SeqCst)
    }

    /// One job less is at work.
    pub(crate) fn end(&self) {
        self.at_work.fetch_sub(1, Ordering::SeqCst);
    }

    /// A job was asked for a dynamic test once more.
    pub(crate) fn ask(&self) {
        self.asked.fetch_add(1, Ordering::SeqCst);
    }

    /// How often jobs were asked for a dynamic test.
    pub fn asked(&self) -> u64 {
        self.asked.load(Ordering::SeqCst)
    }

    /// A counted job is run once more.
    pub(crate) fn count_run(&self) {
        self.runs.fetch_add(1, Ordering::SeqCst);
    }

    /// How often counted jobs were run.
    pub fn runs(&self) -> u64 {
        self.runs.load(Ordering::SeqCst)
    }

    /// The listener was told a text of so many bytes.
    pub fn hear(&self, bytes: usize) {
        self.heard.fetch_add(bytes as u64, Ordering::SeqCst);
    }

    /// How many bytes of texts the listener was told.
    pub fn heard(&self) -> u64 {
        self.heard.load(Ordering::SeqCst)
    }

    /// A body began before its start could be shown.
    pub fn hurry(&self) {
        self.early.store(true, Ordering::SeqCst);
    }

    /// Whether a body began before its start could be shown.
    pub fn is_early(&self) -> bool {
        self.early.load(Ordering::SeqCst)
    }
}
