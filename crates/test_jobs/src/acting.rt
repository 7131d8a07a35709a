//! Jobs that end as they are told, or by what they see of others.

ghost use Rattle.std.specs.Prelude.{◌≡◌, []};
ghost use Rattle.plan_events.specs.Jobs.{IsRun};
ghost use Rattle.test_jobs.specs.Acting.{gives_any, replies_left, says_any};

use crate::board::Board;
use plan_events::{Job, Outcome, Pull, Status};
use std::hint::spin_loop;
use std::sync::Arc;
use std::thread::yield_now;
use unique_id::Text;

/// How often a job looks for what it waits for.
const MOST_TURNS: u64 = 200_000_000;

/// How often a listener looks for what must not come: some 10 milliseconds long, on a busy machine seconds.
const SOME_TURNS: u64 = 1_000_000;

/// So often one looks before it gives the processor up, which those who are waited for may want.
const SPINS: u64 = 1024;

/// What a job does when it is run.
#[derive(Clone, Copy)]
pub enum Act {
    /// It ends as it is told.
    Ends,
    /// It counts so far, and ends as it is told.
    Counts(u32),
    /// It sets its own flag, and ends well; if it is of one of the nodes from the first to the
    /// last, once it sees those of all.
    Meets(usize, usize),
    /// It ends well if it sees its own flag, and is the only job at work.
    Waits,
}

/// How a job ends: well, or not.
#[derive(Drop)]
pub struct Ends {
    pub well: Outcome,
    pub badly: Outcome,
}

/// A job of a node.
#[derive(Drop)]
pub struct Actor {
    pub(crate) act: Act,
    pub(crate) node: usize,
    pub(crate) board: Arc<Board>,
    pub(crate) pulls: u16,
    // whether it has not said yet that there is a dynamic test
    pub(crate) fresh: bool,
    // none once it was run
    pub(crate) ends: Option<Ends>,
}

/// Counts so far.
fn count(turns: u32) {
    for _turn in 0..turns {
        spin_loop();
    }
}

/// Whether the flags of the nodes from the first to the last are set.
fn are_set(board: &Board, first: usize, last: usize) -> bool {
    for node in first..=last {
        if !board.is_set(node) {
            return false;
        }
    }
    true
}

/// Looks so often for the flags of these nodes, and says whether it saw all of them set.
fn sees(board: &Board, first: usize, last: usize, turns: u64) -> bool {
    for turn in 0..turns {
        if are_set(board, first, last) {
            return true;
        }
        if turn % SPINS == 0 {
            yield_now();
        } else {
            spin_loop();
        }
    }
    false
}

/// Looks for the flag of this node for a while, and says whether it saw it set.
pub fn sees_begin(board: &Board, node: usize) -> bool {
    sees(board, node, node, SOME_TURNS)
}

impl Actor {
    /// Does what it is to do, and says whether it went well.
    fn does(&self) -> bool {
        match self.act {
            Act::Ends => true,
            Act::Counts(turns) => {
                count(turns);
                true
            }
            Act::Meets(first, last) => {
                self.board.set(self.node);
                let is_one = first <= self.node && self.node <= last;
                !is_one || sees(&self.board, first, last, MOST_TURNS)
            }
            Act::Waits => {
                let is_first = self.board.begin() == 0;
                let has_seen = sees(&self.board, self.node, self.node, MOST_TURNS);
                self.board.end();
                is_first && has_seen
            }
        }
    }

    /// Does what it is to do, and answers how it ended: badly, if it has ended before. So a job that came back may be
    /// asked, whatever was done with it.
    #[tactic(auto, using(crate::proofs::Replying::ends_well, crate::proofs::Replying::ends_badly))]
    pub fn finish(&mut self) -> Outcome
        ensures outcome { IsRun (replies_left self.old) result }
        ensures over { replies_left self.new ≡ [] }
    {
        let is_fresh = self.fresh;
        let fails = is_fresh && !self.does();
        match self.ends.take() {
            Some(ends) => {
                let Ends { well, badly } = ends;
                if fails { badly } else { well }
            }
            None => Outcome {
                status: Status::Failed,
                text: Text::empty(),
            },
        }
    }
}

impl Job for Actor {
    ghost answers = { replies_left };

    ghost gives = { λ job. gives_any };

    ghost says = { λ job. says_any };

    fn next(&mut self) -> Pull {
        self.board.ask();
        if self.pulls == 0 {
            return Pull::End;
        }
        self.pulls -= 1;
        self.fresh = false;
        Pull::More
    }

    fn run(&mut self) -> Outcome {
        self.finish()
    }
}
