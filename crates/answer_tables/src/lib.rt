//! Answers questions, one a line, in three sections: about texts, `=== trees` and `=== runs`. Each line is
//! printed with its answer behind it or below it, so what is printed is a table that a person can read.
//! Answers are judged by what is printed, so a part for which there is no memory is left out and not told.
//! The last section, `=== calls`, names calls of memory_driver, which prints what is said of them.
#![tactic(auto)]

mod adding;
mod configuration;
mod escapes;
mod event_words;
mod events;
mod histories;
mod ids;
mod lock_sets;
mod moments;
mod nodes;
mod plans;
mod repeats;
mod run;
mod runs;
mod saved;
mod selection;
mod settings;
mod suites;
mod table;
mod tags;
mod texts;
mod told;
mod traces;
mod trees;
mod words;

use crate::repeats::push_answer;
use crate::table::Table;
use crate::words::{say, show};
use memory_driver::make_calls;
use std::alloc::Global;
use std::io::{Result, Write};
use std::sync::Wait;
use std::thread::Threads;

/// The line above the calls.
const CALLS: &str = "=== calls\n";

/// Adds a line with its answer.
fn push_line(alloc: Global, answers: &mut String, table: &mut Table, line: &str) {
    let mut answer = String::new(alloc);
    push_answer(alloc, &mut answer, table, line);
    show(answers, line, answer.as_str());
    say(answers, "\n");
    drop(answer)
}

/// Adds each line with its answer.
fn push_lines(alloc: Global, answers: &mut String, table: &mut Table, text: &str) {
    for line in text.lines() {
        push_line(alloc, answers, table, line);
    }
}

/// Adds each line of a text with its answer.
fn push_answers(alloc: Global, answers: &mut String, text: &str) {
    if let Ok(mut table) = Table::new(alloc) {
        push_lines(alloc, answers, &mut table, text);
    }
}

/// Prints each line of a text with its answer, and what is said of the calls that it names.
///
/// # Errors
///
/// If there is no memory for what a call is given, or the writer fails.
pub fn print_answers<T: Threads + Wait + Sync, W: Write>(
    rt: &T,
    alloc: Global,
    text: &str,
    writer: &mut W,
) -> Result<()> {
    let (asked, calls) = text.split_once(CALLS).unwrap_or((text, ""));
    let mut answers = String::new(alloc);
    push_answers(alloc, &mut answers, asked);
    writer.write_fmt(format_args!("{answers}{CALLS}"))?;
    drop(answers);
    make_calls(rt, alloc, calls, writer)
}
