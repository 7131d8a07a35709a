//! Bodies that run side by side, and bodies that must not.

use crate::running::{Setup, WIDE, how, run_of_suite, say, show};
use std::alloc::Global;
use std::sync::Wait;
use std::thread::Threads;
use test_jobs::Act;

/// A class whose tests may run side by side, without its tests.
const SIDE_BY_SIDE: &str = "property junit.jupiter.execution.parallel.enabled=true
property junit.jupiter.execution.parallel.mode.default=concurrent
engine e
  class a.B
";

/// Two tests that write one key.
const WRITERS: &str = "property junit.jupiter.execution.parallel.enabled=true
property junit.jupiter.execution.parallel.mode.default=concurrent
engine e
  class a.B
    test t() lock=db:rw pass
    test u() lock=db:rw pass
";

/// A class with an isolated test, and another class.
const ISOLATED: &str = "property junit.jupiter.execution.parallel.enabled=true
property junit.jupiter.execution.parallel.mode.default=concurrent
engine e
  class A
    test a() isolated pass
  class B
    test b() pass
";

/// A class that reads a key, with two classes in its own thread, and one that writes the key. Who
/// ends the last test of the first class offers the second to the worker of the class around it
/// alone, which tries the writer meanwhile.
const BUSY: &str = "property junit.jupiter.execution.parallel.enabled=true
property junit.jupiter.execution.parallel.mode.default=concurrent
engine e
  class A lock=k:r
    class First @same_thread
      test a() @concurrent pass
      test b() @concurrent pass
    class Second @same_thread
      test c() pass
  class B lock=k:rw
    test d() pass
";

/// Two classes side by side, the tests of each one after the other; all but the first two tests write
/// one key. Whoever finds it busy passes its next test over, and has to come back to that.
const ONE_KEY: &str = "property junit.jupiter.execution.parallel.enabled=true
property junit.jupiter.execution.parallel.mode.default=same_thread
property junit.jupiter.execution.parallel.mode.classes.default=concurrent
engine e
  class A
    test a() pass
    test b() lock=k:rw pass
    test c() lock=k:rw pass
    test d() lock=k:rw pass
  class B
    test e() pass
    test f() lock=k:rw pass
    test g() lock=k:rw pass
    test h() lock=k:rw pass
";

/// Adds a class of so many tests, from node 3 on, that may run side by side.
fn push_class(text: &mut String, tests: u32) {
    say(text, SIDE_BY_SIDE);
    for number in 0..tests {
        show(text, "    test t", number);
        say(text, "() pass\n");
    }
}

/// Whether what is said of a run is that it ended well: so many events, and no job unused.
fn is_well(said: &str, events: usize) -> bool {
    let (told, rest) = said.split_once("unused ").unwrap_or((said, ""));
    rest == "asked 0 told 0" && told.split_whitespace().count() == events && !told.contains('!')
}

/// Whether a run of this suite has so many events, and the last part of what is said of it is that
/// it went well.
fn ends_well<R: Threads + Wait + Sync>(
    rt: &R,
    alloc: Global,
    suite: &str,
    how: Setup,
    events: usize,
) -> bool {
    match run_of_suite(rt, alloc, suite, how) {
        Some(said) => is_well(said.as_str(), events),
        None => false,
    }
}

/// Whether a run of so many tests that may run side by side ends so.
pub(crate) fn tests_end_well<R: Threads + Wait + Sync>(
    rt: &R,
    alloc: Global,
    tests: u32,
    how: Setup,
    events: usize,
) -> bool {
    let mut suite = String::new(alloc);
    push_class(&mut suite, tests);
    ends_well(rt, alloc, suite.as_str(), how, events)
}

/// Whether one part of what is said stands before another.
fn stands_before(said: &str, one: &str, other: &str) -> bool {
    match (said.find(one), said.find(other)) {
        (Some(first), Some(second)) => first < second,
        _ => false,
    }
}

/// Whether it is said that the class with the isolated test has ended before the other and its test
/// start, or starts when both have ended.
fn are_apart(said: &str) -> bool {
    let first = stands_before(said, "-2 ", "+4 ") && stands_before(said, "-2 ", "+5 ");
    let last = stands_before(said, "-4 ", "+2 ") && stands_before(said, "-5 ", "+2 ");
    first || last
}

/// Whether it is so in a run.
fn keeps_apart<R: Threads + Wait + Sync>(rt: &R, alloc: Global, ring: u32) -> bool {
    match run_of_suite(rt, alloc, ISOLATED, how(Act::Ends, 4, ring)) {
        Some(said) => are_apart(said.as_str()),
        None => false,
    }
}

/// Whether so many bodies meet where so many workers run them, with a ring of so many words.
fn meet<R: Threads + Wait + Sync>(
    rt: &R,
    alloc: Global,
    bodies: u16,
    workers: u32,
    ring: u32,
) -> bool {
    let act = Act::Meets(3, 2 + usize::from(bodies));
    let events = 6 + 2 * usize::from(bodies);
    tests_end_well(
        rt,
        alloc,
        u32::from(bodies),
        how(act, workers, ring),
        events,
    )
}

/// Whether two, three and four bodies meet where as many workers, or one more, run them.
fn all_meet<R: Threads + Wait + Sync>(rt: &R, alloc: Global, ring: u32) -> bool {
    meet(rt, alloc, 2, 2, ring)
        && meet(rt, alloc, 2, 3, ring)
        && meet(rt, alloc, 3, 3, ring)
        && meet(rt, alloc, 4, 4, ring)
}

/// Whether bodies of one key and an isolated one meet none, those of one worker see that their
/// start is told, and a worker comes to the node that is offered to it alone.
fn all_end_well<R: Threads + Wait + Sync>(rt: &R, alloc: Global, ring: u32) -> bool {
    ends_well(rt, alloc, WRITERS, how(Act::Waits, 2, ring), 10)
        && keeps_apart(rt, alloc, ring)
        && tests_end_well(rt, alloc, 2, how(Act::Waits, 1, ring), 10)
        && ends_well(rt, alloc, BUSY, how(Act::Meets(4, 5), 2, ring), 20)
}

/// Whether all of that is so in each of so many rounds, with a wide ring and with one of one word.
fn all_go_well<R: Threads + Wait + Sync>(rt: &R, alloc: Global, rounds: u32) -> bool {
    for _round in 0..rounds {
        for ring in [WIDE, 1] {
            if !all_meet(rt, alloc, ring) || !all_end_well(rt, alloc, ring) {
                return false;
            }
        }
    }
    true
}

/// Whether the tests of one key all end, in each of so many rounds.
fn all_come_to_the_key<R: Threads + Wait + Sync>(rt: &R, alloc: Global, rounds: u32) -> bool {
    for _round in 0..rounds {
        if !ends_well(rt, alloc, ONE_KEY, how(Act::Counts(20_000), 2, WIDE), 24) {
            return false;
        }
    }
    true
}

pub(crate) fn nodes_of_a_busy_key_are_tried_again<R: Threads + Wait + Sync>(
    rt: &R,
    alloc: Global,
) -> bool {
    all_come_to_the_key(rt, alloc, 100)
}

pub(crate) fn bodies_run_side_by_side_where_they_may<R: Threads + Wait + Sync>(
    rt: &R,
    alloc: Global,
) -> bool {
    // most of twelve workers start late on a small machine
    all_go_well(rt, alloc, 20) && meet(rt, alloc, 12, 12, WIDE) && meet(rt, alloc, 12, 12, 1)
}
