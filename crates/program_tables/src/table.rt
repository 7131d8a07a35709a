//! What was read and answered so far.

use crate::answers::{begins_row, push_answer};
use crate::output::Output;
use crate::rows::push_suite_line;
use crate::texts::Texts;
use std::alloc::{AllocError, Global};
use std::io::{self, Write};
use std::sync::Wait;
use std::thread::Threads;

/// The line of a row, its suite as far as it was read, the files that rows may name, and the answers to
/// the rows above.
#[derive(Drop)]
pub(crate) struct Table {
    row: String,
    suite: Vec<u8>,
    texts: Texts,
    answers: Output,
}

impl Table {
    /// Nothing read and nothing answered.
    pub(crate) fn new(alloc: Global) -> Table {
        Table {
            row: String::new(alloc),
            suite: Vec::new(alloc),
            texts: Texts::new(alloc),
            answers: Output::new(alloc),
        }
    }

    /// Runs the program on the row, if there is one.
    pub(crate) fn run<T: Threads + Wait + Sync>(
        &mut self,
        rt: &T,
        alloc: Global,
    ) -> Result<(), AllocError> {
        let (row, suite) = (self.row.as_str(), self.suite.as_slice());
        push_answer(rt, alloc, &mut self.answers, row, &self.texts, suite)
    }

    /// Runs the program on the row that was read, and begins the next with this line.
    fn begin<T: Threads + Wait + Sync>(
        &mut self,
        rt: &T,
        alloc: Global,
        line: &str,
    ) -> Result<(), AllocError> {
        self.run(rt, alloc)?;
        self.suite.clear();
        self.row.clear();
        self.row.push_str(line)
    }

    /// Answers the row that was read, and a title with itself.
    fn take_title<T: Threads + Wait + Sync>(
        &mut self,
        rt: &T,
        alloc: Global,
        title: &str,
    ) -> Result<(), AllocError> {
        self.begin(rt, alloc, "")?;
        self.answers.push(title.as_bytes())?;
        self.answers.push(b"\n")
    }

    /// Answers the row that was read, and takes the text of a file from a line.
    fn take_text<T: Threads + Wait + Sync>(
        &mut self,
        rt: &T,
        alloc: Global,
        line: &str,
        said: &str,
    ) -> Result<(), AllocError> {
        self.take_title(rt, alloc, line)?;
        self.texts.put(alloc, said)
    }

    /// Reads a line: a title, the text of a file, the line of the next row, or one of the row's suite.
    pub(crate) fn take<T: Threads + Wait + Sync>(
        &mut self,
        rt: &T,
        alloc: Global,
        line: &str,
    ) -> Result<(), AllocError> {
        if line.starts_with("=== ") {
            return self.take_title(rt, alloc, line);
        }
        if let Some(said) = line.strip_prefix("=@ ") {
            return self.take_text(rt, alloc, line, said);
        }
        if begins_row(line) {
            return self.begin(rt, alloc, line);
        }
        push_suite_line(alloc, &mut self.suite, line)
    }

    /// The answers to all rows so far, as they are printed.
    pub(crate) fn answers(&self) -> &[u8] {
        self.answers.taken.as_slice()
    }
}

/// Prints the rows of a text with what they ask for.
///
/// # Errors
///
/// If there is no memory, or the writer fails.
pub(crate) fn print_rows<T: Threads + Wait + Sync, W: Write>(
    rt: &T,
    alloc: Global,
    text: &str,
    writer: &mut W,
) -> io::Result<()> {
    let mut table = Table::new(alloc);
    for line in text.lines() {
        table.take(rt, alloc, line)?;
    }
    table.run(rt, alloc)?;
    writer.write_all(table.answers())
}
