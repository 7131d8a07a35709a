//! A run whose reader or writer fails.

use config_params::Params;
use launcher::{Details, ExitStatus, LaunchFault, Options, ReadFault, read_front, run_options};
use run_results::Theme;
use selectors::Request;
use std::alloc::Global;
use std::io::{Error, ErrorKind, Read, Result as IoResult};
use std::sync::Wait;
use std::thread::Threads;
use value_tests::{Failing, Full};

/// A suite of one passing test.
pub(crate) const SUITE: &str = "engine e\n  class a.B\n    test t() pass\n";

/// The feed of that suite.
const FEED: &str = "w1 plan started
w1 started [engine:e]
w1 started [engine:e]/[class:a.B]
w1 started [engine:e]/[class:a.B]/[method:t()]
w1 finished [engine:e]/[class:a.B]/[method:t()] SUCCESSFUL
w1 finished [engine:e]/[class:a.B] SUCCESSFUL
w1 finished [engine:e] SUCCESSFUL
w1 plan finished
";

/// Gives its text, so many bytes at a time, and fails at the read behind so many.
#[derive(Drop)]
struct Broken<'a> {
    text: &'a [u8],
    step: usize,
    reads: usize,
}

impl Read for Broken<'_> {
    fn read(&mut self, buf: &mut [u8]) -> IoResult<usize> {
        if self.reads == 0 {
            return Err(Error::from(ErrorKind::Other));
        }
        self.reads -= 1;
        let count = self.text.len().min(buf.len()).min(self.step);
        buf[..count].copy_from_slice(&self.text[..count]);
        self.text = &self.text[count..];
        Ok(count)
    }
}

/// The feed of all tests.
pub(crate) fn feed_options(alloc: Global) -> Options {
    Options {
        request: Request {
            selectors: Vec::new(alloc),
            names: Vec::new(alloc),
            rerun: Vec::new(alloc),
            exclusions: Vec::new(alloc),
            include: Vec::new(alloc),
            exclude: Vec::new(alloc),
            shard: None,
            seed: None,
        },
        params: Params::new(alloc),
        processors: 1,
        workers: None,
        spread: None,
        ring: 1024,
        most_nodes: None,
        details: Details::Testfeed,
        theme: Theme::Unicode,
        fail_if_no_tests: false,
        fail_if_nothing_selected: false,
        fail_fast: false,
        tolerated: 0,
        schedule: false,
        times: false,
        replay: None,
        fail_if_passed_over: false,
        drive: None,
    }
}

/// What is read of at most so many bytes from a reader that gives a line, two bytes at a time, and
/// fails behind so many reads.
fn front_of(alloc: Global, most: usize, reads: usize) -> Result<Vec<u8>, ReadFault> {
    let mut reader = Broken {
        text: b"engine e\n",
        step: 2,
        reads,
    };
    read_front(alloc, &mut reader, most)
}

/// Whether a reader that fails ends the reading, whichever of its reads it is: five give the line,
/// and the sixth its end.
pub(crate) fn a_reader_that_fails_ends_the_reading(alloc: Global) -> bool {
    for reads in 0..6 {
        if front_of(alloc, 99, reads).err() != Some(ReadFault::Failed) {
            return false;
        }
    }
    true
}

/// Whether this is read of at most so many bytes, in so many reads.
fn gives_front(alloc: Global, most: usize, reads: usize, front: &[u8]) -> bool {
    match front_of(alloc, most, reads) {
        Ok(read) => read.as_slice() == front,
        Err(_) => false,
    }
}

pub(crate) fn a_reader_that_fails_later_gives_its_front(alloc: Global) -> bool {
    gives_front(alloc, 6, 3, b"engine") && gives_front(alloc, 99, 6, b"engine e\n")
}

/// Whether a suite whose reader fails behind so many reads is refused, and nothing is written.
fn is_refused_unread<T: Threads + Wait + Sync>(rt: &T, alloc: Global, reads: usize) -> bool {
    let mut reader = Broken {
        text: SUITE.as_bytes(),
        step: 9,
        reads,
    };
    let mut written = Vec::new(alloc);
    let answer = run_options(rt, alloc, &feed_options(alloc), &mut reader, &mut written);
    answer == Err(LaunchFault::Reading) && written.is_empty()
}

pub(crate) fn a_suite_whose_first_or_second_read_fails_is_refused<R: Threads + Wait + Sync>(
    rt: &R,
    alloc: Global,
) -> bool {
    is_refused_unread(rt, alloc, 0) && is_refused_unread(rt, alloc, 1)
}

/// A suite of a passing and a failing test.
const TWO_TESTS: &str = "engine e\n  class a.B\n    test t() pass\n    test u() fail no\n";

/// The tree and the summary of that suite: 522 bytes.
const TREE: &str = "'-- e [OK]
    '-- a.B [OK]
        +-- t() [OK]
        '-- u() [X] no
Test run finished
[         2 containers found      ]
[         0 containers skipped    ]
[         2 containers started    ]
[         0 containers aborted    ]
[         2 containers successful ]
[         0 containers failed     ]
[         2 tests found           ]
[         0 tests skipped         ]
[         2 tests started         ]
[         0 tests aborted         ]
[         1 tests successful      ]
[         1 tests failed          ]
";

/// The options that print it.
fn tree_options(alloc: Global) -> Options {
    let mut options = feed_options(alloc);
    options.details = Details::Tree;
    options.theme = Theme::Ascii;
    options
}

/// What is printed: the feed of one test while it is run, or the tree of two behind their run.
#[derive(Clone, Copy)]
enum Printed {
    Feed,
    Tree,
}

impl Printed {
    /// The whole text that is printed.
    fn text(self) -> &'static str {
        match self {
            Printed::Feed => FEED,
            Printed::Tree => TREE,
        }
    }

    /// The suite that is run.
    fn suite(self) -> &'static str {
        match self {
            Printed::Feed => SUITE,
            Printed::Tree => TWO_TESTS,
        }
    }

    /// The options that print it.
    fn options(self, alloc: Global) -> Options {
        match self {
            Printed::Feed => feed_options(alloc),
            Printed::Tree => tree_options(alloc),
        }
    }
}

/// How a run ends that prints this to this writer.
fn ends_before<T: Threads + Wait + Sync>(
    rt: &T,
    alloc: Global,
    printed: Printed,
    writer: &mut Failing,
) -> Result<ExitStatus, LaunchFault> {
    let mut reader = printed.suite().as_bytes();
    run_options(rt, alloc, &printed.options(alloc), &mut reader, writer)
}

/// A writer that takes so many bytes, at most so many at a time, and then does this.
fn writer_of(alloc: Global, room: usize, step: usize, full: Full) -> Failing {
    Failing {
        taken: Vec::new(alloc),
        room,
        step,
        full,
    }
}

/// Whether a run is refused at the byte at which its writer, which takes so many at a time, does this.
fn is_cut<T: Threads + Wait + Sync>(
    rt: &T,
    alloc: Global,
    printed: Printed,
    room: usize,
    step: usize,
    full: Full,
) -> bool {
    let mut writer = writer_of(alloc, room, step, full);
    match ends_before(rt, alloc, printed, &mut writer) {
        Ok(_) => false,
        Err(fault) => {
            fault.number() == 81
                && fault.place() == Some(room as u64)
                && writer.taken.len() == room
                && printed
                    .text()
                    .as_bytes()
                    .starts_with(writer.taken.as_slice())
        }
    }
}

/// Whether the output is cut at each of its bytes, where a writer that takes one byte a write fails
/// once, or one that takes all at once is interrupted: neither is written to again.
fn is_cut_anywhere<T: Threads + Wait + Sync>(rt: &T, alloc: Global, printed: Printed) -> bool {
    let length = printed.text().len();
    for room in 0..length {
        if !is_cut(rt, alloc, printed, room, 1, Full::FailsOnce) {
            return false;
        }
        if !is_cut(rt, alloc, printed, room, length, Full::IsInterrupted) {
            return false;
        }
    }
    true
}

pub(crate) fn an_output_that_is_cut_at_any_byte_is_refused_there<R: Threads + Wait + Sync>(
    rt: &R,
    alloc: Global,
) -> bool {
    is_cut_anywhere(rt, alloc, Printed::Tree)
        && TREE.len() == 522
        && is_cut_anywhere(rt, alloc, Printed::Feed)
}

/// Whether a writer that takes so many bytes, and then nothing of the rest, cuts the output there.
fn is_left<T: Threads + Wait + Sync>(rt: &T, alloc: Global, printed: Printed, room: usize) -> bool {
    is_cut(rt, alloc, printed, room, 1, Full::TakesNothing)
        && is_cut(
            rt,
            alloc,
            printed,
            room,
            printed.text().len(),
            Full::TakesNothing,
        )
}

pub(crate) fn an_output_of_which_a_rest_is_not_taken_is_refused_there<R: Threads + Wait + Sync>(
    rt: &R,
    alloc: Global,
) -> bool {
    is_left(rt, alloc, Printed::Tree, 0)
        && is_left(rt, alloc, Printed::Tree, 11)
        && is_left(rt, alloc, Printed::Tree, 521)
        && is_left(rt, alloc, Printed::Feed, 0)
        && is_left(rt, alloc, Printed::Feed, 16)
}

/// Whether the output is taken as a whole by a writer that has room for it and takes so many bytes at a time.
fn is_taken<T: Threads + Wait + Sync>(rt: &T, alloc: Global, step: usize) -> bool {
    let mut writer = writer_of(alloc, TREE.len(), step, Full::Fails);
    let end = ends_before(rt, alloc, Printed::Tree, &mut writer);
    end == Ok(ExitStatus::TestsFailed) && writer.taken.as_slice() == TREE.as_bytes()
}

pub(crate) fn an_output_that_is_taken_as_a_whole_is_no_refusal<R: Threads + Wait + Sync>(
    rt: &R,
    alloc: Global,
) -> bool {
    is_taken(rt, alloc, 1) && is_taken(rt, alloc, TREE.len())
}

/// Whether the feed is taken as a whole by a writer that has room for it and takes seven bytes at a time.
pub(crate) fn a_feed_that_is_taken_as_a_whole_is_no_refusal<T: Threads + Wait + Sync>(
    rt: &T,
    alloc: Global,
) -> bool {
    let mut writer = writer_of(alloc, FEED.len(), 7, Full::Fails);
    let end = ends_before(rt, alloc, Printed::Feed, &mut writer);
    end == Ok(ExitStatus::Success) && writer.taken.as_slice() == FEED.as_bytes()
}
