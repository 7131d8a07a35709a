//! What is noted of a run: how long the bodies of its nodes took, when it began, and on which machine.

ghost use Rattle.std.specs.Prelude.{◌≡◌, [], true, option_map, string_bytes};
ghost use Rattle.job_times.specs.Timings.{IsNotedWith, is_told, micros_of, no_times, times_of, took_of};

use crate::stopwatch::Stopwatch;
use descriptor::{BodyId, NodeId, Tree};
use std::alloc::Global;

/// What is noted of how long a node took.
#[derive(Clone, Copy)]
pub enum Noted {
    /// Nothing is noted.
    NotYet,
    /// It was asked for and was not known.
    Unknown,
    /// So many microseconds.
    Known(u64),
}

impl Noted {
    /// What is noted of what took so many microseconds, if it is known how many.
    pub(crate) fn of(took: Option<u64>) -> Noted
        ensures told { is_told result ≡ true }
        ensures same { micros_of result ≡ took }
    {
        match took {
            None => Noted::Unknown,
            Some(micros) => Noted::Known(micros),
        }
    }

    /// The microseconds that are noted.
    pub fn micros(self) -> Option<u64>
        ensures { result ≡ micros_of self }
    {
        match self {
            Noted::NotYet | Noted::Unknown => None,
            Noted::Known(micros) => Some(micros),
        }
    }

    /// Whether anything is noted.
    pub fn is_told(self) -> bool
        ensures { result ≡ is_told self }
    {
        !matches!(self, Noted::NotYet)
    }
}

/// What is noted of each node, at the place of its number; when the run began, as
/// `2026-11-28T05:04:59` in UTC, and the name of the machine, where they are known.
pub struct Timings {
    pub took: Vec<Noted>,
    pub moment: Option<String>,
    pub host: Option<String>,
}

impl Drop for Timings {
    fn drop(self) {
        let Timings {
            took: _,
            moment: _,
            host: _,
        } = self;
    }
}

/// How long the job of this number took, if there is one and it is known.
fn job_took<S: Stopwatch>(stopwatch: &S, number: Option<BodyId>) -> Option<u64> {
    stopwatch.took(number?)
}

/// The microseconds that a body and its after-body took together, at most as many as 64 bits hold; of one alone where
/// the other is not known.
fn both(body: Option<u64>, after: Option<u64>) -> Option<u64> {
    let Some(first) = body else {
        return after;
    };
    match after {
        Some(last) => Some(first.saturating_add(last)),
        None => Some(first),
    }
}

/// How long this node's body and its after-body took together; nothing is known of a node that the tree lacks.
fn node_took<S: Stopwatch>(tree: &Tree, stopwatch: &S, node: NodeId) -> Option<u64> {
    if node.index() >= tree.len() {
        return None;
    }
    let body = job_took(stopwatch, tree.body(node));
    both(body, job_took(stopwatch, tree.after(node)))
}

/// Notes at this place how long a node took, if there is such a place and nothing is noted there.
fn note_at(took: &mut Vec<Noted>, place: usize, time: Option<u64>)
    ensures { IsNotedWith place took.old.items took.new.items }
{
    if place >= took.len() {
        return;
    }
    if took[place].is_told() {
        return;
    }
    took[place] = Noted::of(time);
}

impl Timings {
    /// The times of a run of which nothing is known: neither a node's, nor when it began, nor on which machine.
    pub fn none(alloc: Global) -> Timings
        ensures { times_of result ≡ no_times }
    {
        Timings::stamped(alloc, None, None)
    }

    /// Of no node is anything noted; the run began at this moment, on this machine.
    pub fn stamped(alloc: Global, moment: Option<String>, host: Option<String>) -> Timings
        ensures { times_of result ≡ record {
          took = [];
          moment = option_map string_bytes moment;
          host = option_map string_bytes host;
        } }
    {
        Timings {
            took: Vec::new(alloc),
            moment,
            host,
        }
    }

    /// How long the bodies of this node took, if it is known.
    pub fn of_node(&self, node: NodeId) -> Option<u64>
        ensures { result ≡ took_of self.now.took.items node }
    {
        match self.took.get(node.index()) {
            Some(noted) => noted.micros(),
            None => None,
        }
    }

    /// Notes how long a node of the tree took, its body and its after-body together, as the stopwatch has it now. What
    /// is noted stays, and a node without a place is not noted.
    pub fn note<S: Stopwatch>(&mut self, stopwatch: &S, tree: &Tree, node: NodeId)
        ensures noted { IsNotedWith node self.old.took.items self.new.took.items }
        ensures moment { self.new.moment ≡ self.old.moment }
        ensures host { self.new.host ≡ self.old.host }
    {
        let time = node_took(tree, stopwatch, node);
        note_at(&mut self.took, node.index(), time);
    }
}
