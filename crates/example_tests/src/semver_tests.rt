//! Tests of the kit's crate `semver`, watched by an observer of their own.

use crate::failures::FailuresByClass;
use harness::{
    BuildFault, Checked, ClassId, Ending, EngineId, Facts, LockMode, NamedTest, ReportFiles,
    TestBox, TestFn, Tests, TextFiles, assume, check, check_same, named, run_tests,
};
use semver::{Version, VersionReq};
use std::alloc::Global;
use std::io::Write;
use std::mem::replace;
use std::sync::Wait;
use std::thread::Threads;
use std::time::Clock;

fn reads(alloc: Global) -> Checked {
    let version = Version::parse(alloc, "1.2.3")?;
    check_same(&(version.major, version.minor, version.patch), &(1, 2, 3))
}

fn refuses(alloc: Global) -> Checked {
    check(
        Version::parse(alloc, "1.2").is_err(),
        "two numbers are no version",
    )
}

fn reads_wrongly(alloc: Global) -> Checked {
    let version = Version::parse(alloc, "1.x.3")?;
    check_same(&version.minor, &0)
}

fn compares_wrongly(alloc: Global) -> Checked {
    let version = Version::parse(alloc, "1.20.3")?;
    check_same(&version.minor, &2)
}

fn needs_a_network(_alloc: Global) -> Checked {
    assume(false, "there is no network")
}

fn orders(alloc: Global) -> Checked {
    let less = Version::parse(alloc, "1.2.3-rc.1")?;
    let more = Version::parse(alloc, "1.2.3")?;
    check(less < more, "a release comes after its candidates")
}

fn closes(_alloc: Global) -> Checked {
    Ok(())
}

fn matches(alloc: Global, minor: u64, wanted: bool) -> Checked {
    let requirement = VersionReq::parse(alloc, "^1.2")?;
    check_same(&requirement.matches(&Version::new(1, minor, 0)), &wanted)
}

/// Adds a test that is wrong, and tagged so.
fn add_wrong(tests: &mut Tests, class: ClassId, name: &str, run: TestFn) -> Result<(), BuildFault>
    requires { TestFn.IsAlwaysCallable run }
{
    tests.tag("wrong")?;
    tests.test(class, name, run)
}

/// Begins the tests, with the class of versions: right ones, two wrong ones, one that is aborted, and the after-body.
fn add_versions(
    tests: &mut Tests,
    right: &[NamedTest<'_>],
    reading: TestFn,
    comparing: TestFn,
    aborting: TestFn,
    closing: TestFn,
) -> Result<EngineId, BuildFault>
    requires reading { TestFn.IsAlwaysCallable reading }
    requires comparing { TestFn.IsAlwaysCallable comparing }
    requires aborting { TestFn.IsAlwaysCallable aborting }
    requires closing { TestFn.IsAlwaysCallable closing }
{
    tests.property("junit.jupiter.execution.parallel.enabled", "true")?;
    tests.property(
        "junit.jupiter.execution.parallel.mode.default",
        "concurrent",
    )?;
    let engine = tests.engine("semver")?;
    let versions = tests.class(engine, "semver.Versions")?;
    tests.functions(versions, right)?;
    add_wrong(tests, versions, "reads_wrongly()", reading)?;
    add_wrong(tests, versions, "compares_wrongly()", comparing)?;
    tests.test(versions, "needs_a_network()", aborting)?;
    tests.after(versions, closing)?;
    Ok(engine)
}

/// Adds the class of requirements, with a test and one that is disabled.
fn add_requirements(
    tests: &mut Tests,
    engine: EngineId,
    ordering: TestFn,
    lexing: TestFn,
) -> Result<ClassId, BuildFault>
    requires ordering { TestFn.IsAlwaysCallable ordering }
    requires lexing { TestFn.IsAlwaysCallable lexing }
{
    tests.lock("table", LockMode::Read)?;
    let requirements = tests.class(engine, "semver.Requirements")?;
    tests.test(requirements, "orders()", ordering)?;
    tests.disabled("until there is a lexer")?;
    tests.test(requirements, "lexes()", lexing)?;
    Ok(requirements)
}

/// Adds the factory of a caret with two dynamic tests.
fn add_caret(
    tests: &mut Tests,
    requirements: ClassId,
    closing: TestFn,
    two: TestBox,
    one: TestBox,
) -> Result<(), BuildFault>
    requires closing { TestFn.IsAlwaysCallable closing }
    requires two { TestBox.IsAlwaysCallable two }
    requires one { TestBox.IsAlwaysCallable one }
{
    let caret = tests.factory(requirements, "caret()", closing)?;
    tests.dynamic(caret, "1.2.0", two)?;
    tests.dynamic(caret, "1.1.0", one)
}

/// Builds the tests, and runs them as the arguments ask for, which it takes; the failures are counted. What is built
/// here is not handed out, so nothing is hidden: the functions that add take what they add. Clock and arguments are
/// lent: what is owned would have to be dropped at each `?`.
pub fn run_semver_tests<
    T: Threads + Wait + Sync,
    C: Clock + Sync,
    F: TextFiles,
    W: Write,
    E: Write,
    K: ReportFiles,
>(
    rt: &T,
    clock: &C,
    alloc: Global,
    words: &mut Vec<String>,
    texts: &mut F,
    facts: &Facts<'_>,
    writer: &mut W,
    errors: &mut E,
    files: &mut K,
    failures: &mut FailuresByClass,
) -> Result<Ending, BuildFault> {
    let mut tests = Tests::new(alloc)?;
    let right = &[named("reads()", reads), named("refuses()", refuses)];
    let engine = add_versions(
        &mut tests,
        right,
        reads_wrongly,
        compares_wrongly,
        needs_a_network,
        closes,
    )?;
    let requirements = add_requirements(&mut tests, engine, orders, closes)?;
    let two: TestBox = Box::new(alloc, move |alloc: Global| matches(alloc, 2, true))?;
    let one: TestBox = Box::new(alloc, move |alloc: Global| matches(alloc, 1, false))?;
    add_caret(&mut tests, requirements, closes, two, one)?;
    run_tests(
        rt,
        clock,
        alloc,
        Ok(replace(words, Vec::new(alloc)).into_iter()),
        texts,
        facts,
        false,
        tests,
        writer,
        errors,
        files,
        failures,
    )
}
