//! What was read of a section so far.

use crate::adding::push_added;
use crate::runs::push_run_answer;
use crate::words::{cut, show};
use crate::{texts, trees};
use descriptor::TreeBuilder;
use std::alloc::{AllocError, Global};

/// What the questions of a section are about.
#[derive(Clone, Copy)]
enum Section {
    /// Each about a text of its own.
    Texts,
    /// About the tree that was built last.
    Trees,
    /// About runs of the suite that was read last.
    Runs,
}

/// The section, and the nodes that were added one by one, or the lines of a suite.
#[derive(Drop)]
pub(crate) struct Table {
    section: Section,
    builder: TreeBuilder,
    suite: String,
}

fn section_of(word: &str) -> Section {
    match word {
        "trees" => Section::Trees,
        "runs" => Section::Runs,
        _ => Section::Texts,
    }
}

impl Table {
    /// No nodes and no lines.
    pub(crate) fn new(alloc: Global) -> Result<Table, AllocError> {
        Ok(Table {
            section: Section::Texts,
            builder: TreeBuilder::new(alloc)?,
            suite: String::new(alloc),
        })
    }

    /// Begins a tree or a suite.
    fn begin(&mut self, alloc: Global) {
        self.suite.clear();
        if let Ok(builder) = TreeBuilder::new(alloc) {
            self.builder = builder;
        }
    }

    /// Takes a line of a suite.
    fn take(&mut self, line: &str) {
        show(&mut self.suite, line, "\n")
    }

    /// Adds the answer to a question.
    fn push_asked(&self, alloc: Global, answer: &mut String, asked: &str) {
        let (asked, words) = cut(asked);
        let suite = self.suite.as_str();
        match self.section {
            Section::Runs => push_run_answer(alloc, answer, suite, asked, words),
            _ if suite.is_empty() => {
                trees::push_answer(alloc, answer, self.builder.tree(), asked, words)
            }
            _ => trees::push_suite_answer(alloc, answer, suite, asked, words),
        }
    }

    /// Reads a line of a tree or a suite, and answers where it adds a node or asks.
    fn push_read(&mut self, alloc: Global, answer: &mut String, line: &str) {
        match line.split_once(' ') {
            Some(("+", node)) => push_added(alloc, answer, &mut self.builder, node),
            Some(("?", asked)) => self.push_asked(alloc, answer, asked),
            Some(("==", _)) => self.begin(alloc),
            _ => self.take(line),
        }
    }

    /// Reads a line, and adds the answer to it.
    pub(crate) fn push_answer(&mut self, alloc: Global, answer: &mut String, line: &str) {
        if let Some(word) = line.strip_prefix("=== ") {
            self.section = section_of(word);
            return;
        }
        match self.section {
            Section::Texts => texts::push_answer(alloc, answer, line),
            _ => self.push_read(alloc, answer, line),
        }
    }
}
