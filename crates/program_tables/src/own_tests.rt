//! Tests of the table's own.

use crate::memory_files::MemoryFiles;
use crate::output::Output;
use crate::table_clock::TableClock;
use crate::texts::RowFiles;
use example_tests::FailuresByClass;
use harness::{
    BuildFault, Checked, ClassId, Ending, EngineId, Facts, LockMode, Mode, TestBox, TestFn, Tests,
    assume, check_same, run_tests,
};
use std::alloc::Global;
use std::mem::replace;
use std::sync::Wait;
use std::thread::Threads;

fn passes(_alloc: Global) -> Checked {
    Ok(())
}

fn fails(_alloc: Global) -> Checked {
    check_same(&2, &3)
}

fn aborts(_alloc: Global) -> Checked {
    assume(false, "closed today")
}

/// Adds the first class: a body of its own, tests with a tag and a lock, that fail, and are disabled, and an after-body.
fn add_class(
    tests: &mut Tests,
    engine: EngineId,
    passing: TestFn,
    failing: TestFn,
) -> Result<ClassId, BuildFault>
    requires passing { TestFn.IsAlwaysCallable passing }
    requires failing { TestFn.IsAlwaysCallable failing }
{
    tests.before(passing)?;
    let class = tests.class(engine, "a.B")?;
    tests.tag("slow")?;
    tests.lock("db", LockMode::Read)?;
    tests.test(class, "passes()", passing)?;
    tests.test(class, "fails()", failing)?;
    tests.disabled("until the queue is up")?;
    tests.test(class, "waits()", passing)?;
    tests.after(class, passing)?;
    Ok(class)
}

/// Adds a nested class that fails before its test.
fn add_nested(
    tests: &mut Tests,
    class: ClassId,
    passing: TestFn,
    failing: TestFn,
) -> Result<(), BuildFault>
    requires passing { TestFn.IsAlwaysCallable passing }
    requires failing { TestFn.IsAlwaysCallable failing }
{
    tests.before(failing)?;
    let inner = tests.nested(class, "Inner")?;
    tests.test(inner, "is_not_run()", passing)
}

/// Adds the second class, isolated, of a factory with two dynamic tests.
fn add_factory(
    tests: &mut Tests,
    engine: EngineId,
    passing: TestFn,
    first: TestBox,
    second: TestBox,
) -> Result<(), BuildFault>
    requires passing { TestFn.IsAlwaysCallable passing }
    requires first { TestBox.IsAlwaysCallable first }
    requires second { TestBox.IsAlwaysCallable second }
{
    tests.mode(Mode::Concurrent);
    tests.isolated();
    let class = tests.class(engine, "a.C")?;
    let factory = tests.factory(class, "makes()", passing)?;
    tests.dynamic(factory, "first", first)?;
    tests.dynamic(factory, "second", second)
}

/// Runs these tests with the arguments of a row, which it takes, and the files that these may name; the failures are
/// counted.
pub(crate) fn run_own_tests<T: Threads + Wait + Sync>(
    rt: &T,
    clock: &TableClock,
    alloc: Global,
    words: &mut Vec<String>,
    texts: &mut RowFiles<'_>,
    facts: &Facts<'_>,
    answers: &mut Output,
    errors: &mut Vec<u8>,
    files: &mut MemoryFiles,
    failures: &mut FailuresByClass,
) -> Result<Ending, BuildFault> {
    let mut tests = Tests::new(alloc)?;
    tests.property("junit.jupiter.execution.parallel.config.strategy", "fixed")?;
    let engine = tests.engine("e")?;
    let class = add_class(&mut tests, engine, passes, fails)?;
    add_nested(&mut tests, class, passes, fails)?;
    let first: TestBox = Box::new(alloc, move |alloc: Global| aborts(alloc))?;
    let second: TestBox = Box::new(alloc, move |alloc: Global| passes(alloc))?;
    add_factory(&mut tests, engine, passes, first, second)?;
    run_tests(
        rt,
        clock,
        alloc,
        Ok(replace(words, Vec::new(alloc)).into_iter()),
        texts,
        facts,
        false,
        tests,
        answers,
        errors,
        files,
        failures,
    )
}
