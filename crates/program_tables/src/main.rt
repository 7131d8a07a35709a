//! Runs the program over memory, by rows from standard input: a line `== ` with the arguments of a
//! command line, and below it the lines of a suite. A line `=== ` is the title of the rows below it.
//! Both are printed again, and below the arguments what the program writes and how it ends; where they
//! begin with `=? `, what stands on standard error follows; below `=! ` too, where that is a terminal;
//! below `=< N ` too, with an output that takes N bytes and then fails. Below `=2 ` stands instead
//! whether a second worker does something. A row that begins with `=t ` has no suite: tests of the
//! table's own are run, and what stands on standard error follows; so it is with `=v ` of the tests of semver,
//! behind what these print stands how many of each class failed. From a line `=@ NAME TEXT` on the file
//! NAME has TEXT, in which `\n` stands for an end of line, and so has a variable of that name; behind
//! `=@ NAME` there is none. Below what the program writes stand the reports that are kept, each below a
//! line `-- ` with its name. From a line `=== texts` on stand questions, which answer_tables answers; at a line
//! `=== shelf` the tests of a shelf are run; and from a line `=== behaviours` on stand names of behaviour_tests, each
//! printed with whether what it says holds. A program that is given arguments reads nothing: it runs the tests of the
//! shelf as the arguments ask for, as a program of these tests alone would.
#![tactic(auto)]

mod answers;
mod memory_files;
mod output;
mod own_tests;
mod rows;
mod table;
mod table_clock;
mod texts;

use crate::table::print_rows;
use answer_tables::print_answers;
use behaviour_tests::print_behaviours;
use example_tests::run_shelf_tests;
use harness::{System, exit_code};
use std::env::{Env, args};
use std::io::{self, IsTerminal, Write};
use std::process::ExitCode;

/// The line above the questions.
const QUESTIONS: &str = "=== texts\n";

/// The line below which the tests of the shelf are run.
const SHELF: &str = "=== shelf\n";

/// The line above the names of what is to hold.
const BEHAVIOURS: &str = "=== behaviours\n";

/// What stands before such a line, and what stands below it, if it is there.
fn cut<'t>(text: &'t str, line: &str) -> (&'t str, Option<&'t str>) {
    match text.split_once(line) {
        Some((before, below)) => (before, Some(below)),
        None => (text, None),
    }
}

/// Prints how the tests of the shelf end.
fn print_shelf<S: System, W: Write, E: Write + IsTerminal>(
    system: &S,
    writer: &mut W,
    errors: &mut E,
) -> io::Result<()> {
    writer.write_all(SHELF.as_bytes())?;
    match run_shelf_tests(system, writer, errors) {
        Ok(ending) => writer.write_fmt(format_args!("status {}\n", ending.status)),
        Err(fault) => writer.write_fmt(format_args!("{fault}\n")),
    }
}

/// Prints a table with its answers.
fn print_table<S: System, W: Write, E: Write + IsTerminal>(
    system: &S,
    text: &str,
    writer: &mut W,
    errors: &mut E,
) -> io::Result<()> {
    let alloc = system.alloc();
    let (text, names) = cut(text, BEHAVIOURS);
    let (text, shelf) = cut(text, SHELF);
    let (rows, asked) = cut(text, QUESTIONS);
    print_rows(system, alloc, rows, writer)?;
    if let Some(asked) = asked {
        writer.write_all(QUESTIONS.as_bytes())?;
        print_answers(system, alloc, asked, writer)?;
    }
    if shelf.is_some() {
        print_shelf(system, writer, errors)?;
    }
    if let Some(names) = names {
        writer.write_all(BEHAVIOURS.as_bytes())?;
        print_behaviours(system, alloc, names, writer)?;
    }
    Ok(())
}

/// Whether the system gave arguments besides the program's name, or none at all.
fn has_words<S: Env + AllocGlobal>(system: &S) -> bool {
    match args(system) {
        Ok(words) => words.count() != 1,
        Err(_) => true,
    }
}

fn main(rt: HostRuntime) -> ExitCode {
    let (writer, errors) = (&mut io::writer(&rt), &mut rt.stderr());
    if has_words(&rt) {
        return exit_code(run_shelf_tests(&rt, writer, errors), errors);
    }
    let printed = match io::read_to_string(rt.alloc(), rt.reader()) {
        Ok(text) => print_table(&rt, text.as_str(), writer, errors),
        Err(error) => Err(error),
    };
    match printed {
        Ok(()) => ExitCode::SUCCESS,
        Err(_) => ExitCode::FAILURE,
    }
}
