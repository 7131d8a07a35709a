//! Runs whose tests hosts run, one for each worker, some of which end meanwhile.

ghost use Rattle.std.specs.Prelude.{◌≤◌, length};

use crate::running::{WIDE, is_said, say, show, staged};
use host_bodies::{Channel, HostJob, host_jobs};
use plan_events::Status;
use resource_locks::Plan;
use std::alloc::{AllocError, Global};
use std::hint::spin_loop;
use std::io::{Read, Result as IoResult, Write};
use std::sync::atomic::{AtomicU8, AtomicUsize, Ordering};
use std::sync::{Arc, Mutex, Wait};
use std::thread::Threads;
use worker_pool::{Report, run_placed};

/// The longest request, in bytes.
const LONGEST_REQUEST: usize = 256;

/// So long a host takes to answer: others have the time to take all other nodes.
const TURNS: u32 = 20_000;

/// A test with this in its name ends its host.
const FATAL: &str = "dies";

/// Two runs with so many hosts, which the second has as the first has left them: the nodes that fail in the first, its
/// suite, and the nodes that fail in the second.
struct Row {
    hosts: usize,
    failed: &'static str,
    suite: &'static str,
    failed_then: &'static str,
}

/// The suite of each second run: two classes side by side.
const THEN: &str = "property junit.jupiter.execution.parallel.enabled=true
property junit.jupiter.execution.parallel.mode.default=concurrent
engine e
  class Y
    test y() pass
  class Z
    test z() pass
";

/// Classes side by side, the tests of each one after the other: the other tests of the class fail, and no other class.
const CLASSES: Row = Row {
    hosts: 2,
    failed: "3 4 5 ",
    suite: "property junit.jupiter.execution.parallel.enabled=true
property junit.jupiter.execution.parallel.mode.default=same_thread
property junit.jupiter.execution.parallel.mode.classes.default=concurrent
engine e
  class A
    test dies() pass
    test a() pass
    test b() pass
  class B
    test c() pass
    test d() pass
  class C
    test e() pass
    test f() pass
  class D
    test g() pass
    test h() pass
",
    failed_then: "",
};

/// Tests side by side: no other one fails, whether one or three more hosts are there.
const TESTS: &str = "property junit.jupiter.execution.parallel.enabled=true
property junit.jupiter.execution.parallel.mode.default=concurrent
engine e
  class A
    test dies() pass
    test a() pass
    test b() pass
    test c() pass
    test d() pass
    test e() pass
    test f() pass
";

const TESTS_OF_TWO: Row = Row {
    hosts: 2,
    failed: "3 ",
    suite: TESTS,
    failed_then: "",
};

const TESTS_OF_FOUR: Row = Row {
    hosts: 4,
    failed: "3 ",
    suite: TESTS,
    failed_then: "",
};

/// There is one host: what comes behind the test that ends it fails, and all of the next run.
const ALONE: Row = Row {
    hosts: 1,
    failed: "4 5 7 ",
    suite: "engine e
  class A
    test a() pass
    test dies() pass
    test b() pass
  class B
    test c() pass
",
    failed_then: "3 5 ",
};

/// Both hosts end, each in a class of its own.
const BOTH: Row = Row {
    hosts: 2,
    failed: "3 4 6 7 ",
    suite: "property junit.jupiter.execution.parallel.enabled=true
property junit.jupiter.execution.parallel.mode.default=same_thread
property junit.jupiter.execution.parallel.mode.classes.default=concurrent
engine e
  class A
    test dies() pass
    test a() pass
  class B
    test dies() pass
    test b() pass
",
    failed_then: "3 5 ",
};

/// What a host is asked, byte by byte: it is written at one end of its channel, and answered at the other.
#[derive(Drop)]
struct Request {
    bytes: Vec<AtomicU8>,
    len: AtomicUsize,
}

impl Request {
    /// No request.
    fn none(alloc: Global) -> Result<Request, AllocError> {
        let mut bytes = Vec::new(alloc);
        for _byte in 0..LONGEST_REQUEST {
            bytes.push(AtomicU8::new(0))?;
        }
        Ok(Request {
            bytes,
            len: AtomicUsize::new(0),
        })
    }

    /// This is asked.
    fn ask(&self, request: &[u8]) {
        for (place, byte) in self.bytes.iter().zip(request.iter()) {
            place.store(*byte, Ordering::SeqCst);
        }
        self.len.store(request.len(), Ordering::SeqCst);
    }

    /// What is asked.
    fn asked(&self, alloc: Global) -> Vec<u8> {
        let mut request = Vec::new(alloc);
        for byte in self.bytes.iter().take(self.len.load(Ordering::SeqCst)) {
            let _ = request.push(byte.load(Ordering::SeqCst));
        }
        request
    }
}

/// The end of a host's channel to which requests are written.
#[derive(Drop)]
struct Ear {
    request: Arc<Request>,
}

/// The end from which its answers are read.
#[derive(Drop)]
struct Mouth {
    alloc: Global,
    request: Arc<Request>,
}

impl Write for Ear {
    fn write(&mut self, buf: &[u8]) -> IoResult<usize> {
        self.request.ask(buf);
        Ok(buf.len())
    }

    fn flush(&mut self) -> IoResult<()> {
        Ok(())
    }
}

/// What a host says to this request: that the test passed; nothing, if it ends by it.
fn answer_to(alloc: Global, request: &str) -> String {
    let mut answer = String::new(alloc);
    if let Some(front) = request.strip_suffix("}\n") {
        if !front.contains(FATAL) {
            say(&mut answer, front);
            say(&mut answer, ",\"status\":\"SUCCESSFUL\"}\n");
        }
    }
    answer
}

/// Puts this text at the front of a room, if it fits, and says how long it is.
fn put_front(room: &mut [u8], text: &str) -> usize
    ensures { result ≤ length room.new }
{
    let len = text.len();
    if len > room.len() {
        return 0;
    }
    room[..len].copy_from_slice(text.as_bytes());
    len
}

impl Read for Mouth {
    fn read(&mut self, buf: &mut [u8]) -> IoResult<usize> {
        for _turn in 0..TURNS {
            spin_loop();
        }
        let request = self.request.asked(self.alloc);
        let asked = std::str::from_utf8(request.as_slice()).unwrap_or("");
        let answer = answer_to(self.alloc, asked);
        Ok(put_front(buf, answer.as_str()))
    }
}

type Host = Channel<Mouth, Ear>;

/// A host that was asked nothing yet.
fn host(alloc: Global) -> Option<Host> {
    let request = Arc::new(alloc, Request::none(alloc).ok()?).ok()?;
    let ear = Ear {
        request: Arc::try_clone(&request).ok()?,
    };
    Channel::new(alloc, Mouth { alloc, request }, ear).ok()
}

/// So many hosts.
fn hosts(alloc: Global, many: usize) -> Option<Vec<Mutex<Host>>> {
    let mut hosts = Vec::new(alloc);
    for _host in 0..many {
        hosts.push(Mutex::new(host(alloc)?)).ok()?;
    }
    Some(hosts)
}

/// The numbers of the nodes that failed, from the least.
fn failed_nodes(alloc: Global, report: &Report<HostJob>) -> Vec<usize> {
    let mut failed = Vec::new(alloc);
    for event in report.events.as_slice() {
        if event.status == Some(Status::Failed) {
            let _ = failed.push(event.node.index());
        }
    }
    let _ = failed.sort();
    failed
}

/// Says which nodes failed, and of which it is told otherwise than that their host had ended.
fn push_failed(alloc: Global, text: &mut String, report: &Report<HostJob>) {
    for event in report.events.as_slice() {
        if event.status == Some(Status::Failed)
            && report.texts.of(event.node) != Some("the host has ended")
        {
            say(text, "otherwise ");
        }
    }
    let failed = failed_nodes(alloc, report);
    for node in failed.as_slice() {
        show(text, "", *node);
        say(text, " ");
    }
}

/// Runs a plan at these hosts, a worker for each, and says which nodes failed.
fn run_at<R: Threads + Wait + Sync>(
    rt: &R,
    alloc: Global,
    plan: Plan,
    hosts: &[Mutex<Host>],
) -> Option<String> {
    let Ok(jobs) = host_jobs(alloc, plan.tree()) else {
        drop(plan);
        return None;
    };
    let workers = u32::try_from(hosts.len()).unwrap_or(1);
    let report = run_placed(rt, alloc, plan, jobs, workers, WIDE, hosts, &mut ()).ok()?;
    let mut text = String::new(alloc);
    push_failed(alloc, &mut text, &report);
    Some(text)
}

/// The same of a suite.
fn run_suite_at<R: Threads + Wait + Sync>(
    rt: &R,
    alloc: Global,
    suite: &str,
    hosts: &[Mutex<Host>],
) -> Option<String> {
    let (plan, scripts) = staged(alloc, suite)?;
    drop(scripts);
    run_at(rt, alloc, plan, hosts)
}

/// Whether both runs of a row go as it says.
fn goes_so<R: Threads + Wait + Sync>(rt: &R, alloc: Global, row: &Row) -> bool {
    let Some(hosts) = hosts(alloc, row.hosts) else {
        return false;
    };
    let first = run_suite_at(rt, alloc, row.suite, hosts.as_slice());
    is_said(first, row.failed)
        && is_said(
            run_suite_at(rt, alloc, THEN, hosts.as_slice()),
            row.failed_then,
        )
}

/// Whether these rows go as they say in each of so many rounds.
fn all_go_so<R: Threads + Wait + Sync>(rt: &R, alloc: Global, rows: &[Row], rounds: u32) -> bool {
    for _round in 0..rounds {
        for row in rows {
            if !goes_so(rt, alloc, row) {
                return false;
            }
        }
    }
    true
}

pub(crate) fn a_host_that_ended_is_asked_for_no_other_class<R: Threads + Wait + Sync>(
    rt: &R,
    alloc: Global,
) -> bool {
    all_go_so(rt, alloc, &[CLASSES, TESTS_OF_TWO, TESTS_OF_FOUR], 50)
}

pub(crate) fn the_rest_fails_where_all_hosts_ended<R: Threads + Wait + Sync>(
    rt: &R,
    alloc: Global,
) -> bool {
    all_go_so(rt, alloc, &[ALONE, BOTH], 50)
}
