//! Tests of a shelf: with a `main`, the program of docs/OWN-TESTS.md.

use crate::shelf::Shelf;
use harness::{
    BuildFault, Checked, Ending, LockMode, System, TestBox, Tests, check, check_same,
    run_tests_here,
};
use std::alloc::Global;
use std::io::{IsTerminal, Write};

fn holds(_alloc: Global) -> Checked {
    let mut shelf = Shelf::with_places(3);
    check(shelf.put(2), "two books have room on three places")?;
    check_same(&shelf.taken, &3) // fails
}

fn fits(_alloc: Global) -> Checked {
    check(Shelf::with_places(3).put(3), "three books have room")
}

/// Builds the tests, and runs them as the arguments of the command line ask for.
pub fn run_shelf_tests<S: System, W: Write, E: Write + IsTerminal>(
    system: &S,
    writer: &mut W,
    errors: &mut E,
) -> Result<Ending, BuildFault> {
    let alloc = system.alloc();
    let mut tests = Tests::new(alloc)?;
    let engine = tests.engine("shelf")?;
    tests.lock("shelf", LockMode::ReadWrite)?; // of the class below
    let class = tests.class(engine, "shelf.Books")?;
    tests.test(class, "holds()", holds)?;
    let factory = tests.factory(class, "fits()", fits)?;
    let three: TestBox = Box::new(alloc, move |alloc: Global| fits(alloc))?;
    tests.dynamic(factory, "three", three)?;
    run_tests_here(system, tests, writer, errors, &mut ())
}
