//! The suite of a text.

ghost use Rattle.std.specs.Prelude.{◌≡◌, ◌≢◌, ◌≤◌, ◌+◌, ◌==◌, length, count_by, IfOk, IfErr, Ok, Err};
ghost use Rattle.std.specs.Str.{IsUtf8};
ghost use Rattle.std.specs.Str.Lines.{lines};
ghost use Rattle.descriptor.specs.Nodes.{IsTree, size};
ghost use Rattle.resource_locks.specs.Spares.{HasBareSpares};
ghost use Rattle.suite_text.specs.Kinds.{words_of, AreNodesOf, IsKind, HasBodies};
ghost use Rattle.suite_text.specs.Reading.Bytes.{suite_read};
ghost use Rattle.suite_words.specs.Limits.{node_limit, byte_limit};
ghost use Rattle.suite_words.specs.Reading.Bytes.{without_mark};
ghost use Rattle.suite_words.specs.Reading.Faults.{Gives};
ghost use Rattle.suite_text.specs.Reading.Ids.{IdsFollow};
ghost use Rattle.suite_text.specs.Reading.Judged.{MayRunOut};
ghost use Rattle.suite_text.specs.Reading.Parts.{SuiteParts, no_lines, AreBodiesOf, bodies_answered};
ghost use Rattle.suite_text.specs.Suites.{suite_from, suite_of, suite_of_lines, suite_parts};
ghost use Rattle.suite_text.specs.Writing.Suites.{IsSuite};
ghost use Rattle.unique_id.specs.Answers.{texts};

mod builder;
mod first_line;

use builder::SuiteBuilder;
use config_params::Params;
use descriptor::{NodeLimit, Tree};
use first_line::judge_first;
use std::alloc::Global;
use suite_words::{Script, SuiteFault, byte_limit, lines_in, node_limit, without_mark};

/// The number of the line that follows these bytes, from 1.
fn line_after(bytes: &[u8]) -> usize
    ensures { result ≡ 1 + count_by (λ byte. byte == 10) bytes.now }
{
    let mut line = 1;
    for byte in bytes {
        if *byte == b'\n' {
            line += 1;
        }
    }
    line
}

/// What all lines of a text have made, where there may be so many nodes.
fn builder_of(alloc: Global, limit: NodeLimit, lines: &[&str]) -> Result<SuiteBuilder, SuiteFault>
    ensures exact { Gives (λ builder. builder) result (suite_from 1 (no_lines limit) (texts lines.now)) }
    ensures limit { IfOk result (λ builder. builder.limit ≡ limit) }
{
    let mut builder = SuiteBuilder::new(alloc, limit, lines.len())?;
    builder.read_lines(alloc, lines)?;
    Ok(builder)
}

/// The suite of all lines of a text, where there may be so many nodes.
fn suite_of_lines(alloc: Global, limit: NodeLimit, lines: &[&str]) -> Result<Suite, SuiteFault>
    ensures exact { Gives suite_parts result (suite_of_lines limit (texts lines.now)) }
    ensures tree { IfOk result (λ suite. IsTree suite.tree) }
    ensures few { IfOk result (λ suite. size suite.tree ≤ limit + 1) }
    ensures ids { IfOk result (λ suite. IdsFollow suite.tree) }
    ensures answered { IfOk result (λ suite. AreBodiesOf suite.tree.nodes (bodies_answered suite.scripts.items)) }
{
    Ok(builder_of(alloc, limit, lines)?.finish(alloc)?)
}

/// The suite of a text, line by line, where so many nodes were asked for.
fn suite_in(alloc: Global, most: Option<NodeLimit>, text: &str) -> Result<Suite, SuiteFault>
    ensures exact { Gives suite_parts result (suite_of most text.now) }
    ensures tree { IfOk result (λ suite. IsTree suite.tree) }
    ensures few { IfOk result (λ suite. size suite.tree ≤ node_limit most + 1) }
    ensures ids { IfOk result (λ suite. IdsFollow suite.tree) }
    ensures answered { IfOk result (λ suite. AreBodiesOf suite.tree.nodes (bodies_answered suite.scripts.items)) }
    ensures no_memory { IfErr result (λ fault. fault ≡ SuiteFault.NoMemory → (length text.now ≤ byte_limit most)
        × MayRunOut 1 (no_lines (node_limit most)) (lines text.now)) }
{
    if text.len() > byte_limit(most) {
        return Err(SuiteFault::TooLarge);
    }
    judge_first(text)?;
    suite_of_lines(alloc, node_limit(most), &lines_in(alloc, text)?)
}

/// The suite of bytes, which are judged before their lines.
fn suite_of_bytes(
    alloc: Global,
    most: &Option<NodeLimit>,
    bytes: &[u8],
) -> Result<Suite, SuiteFault>
    ensures exact { Gives suite_parts result (suite_read most.now bytes.now) }
    ensures tree { IfOk result (λ suite. IsTree suite.tree) }
    ensures few { IfOk result (λ suite. size suite.tree ≤ node_limit most.now + 1) }
    ensures no_memory { IfErr result (λ fault. fault ≡ SuiteFault.NoMemory → (length bytes.now ≤ byte_limit most.now)
        × IsUtf8 bytes.now × MayRunOut 1 (no_lines (node_limit most.now)) (lines (without_mark bytes.now))) }
{
    if bytes.len() > byte_limit(*most) {
        return Err(SuiteFault::TooLarge);
    }
    match std::str::from_utf8(bytes) {
        Ok(text) => suite_in(alloc, *most, without_mark(text)),
        Err(fault) => {
            let line = line_after(&bytes[..fault.valid_up_to()]);
            Err(SuiteFault::BadLine(line))
        }
    }
}

/// A tree of tests, what its bodies answer, and what property lines say of the configuration.
#[derive(Drop)]
pub struct Suite {
    pub tree: Tree,
    pub scripts: Vec<Script>,
    /// As the file's parameters.
    pub properties: Params,
}

impl Suite {
    /// The suite of a text. Lines end at a line feed, before which a carriage return is dropped;
    /// the last may go without. Refusals: 103 for more than 1,048,576 bytes, else the first
    /// faulty line's: 101, 100, 102, 17 (its id), 10, 12 and 17 (its reason), in this order; of a
    /// property's line 101, 100, 30, 31. Of the first faulty line want of memory may hide what is
    /// judged behind a node's name, and no other fault if no line before it takes memory. Where so
    /// many nodes are asked for, 10 is for more nodes than these in place of 4,095, and 103 for
    /// more than 16,777,216 bytes.
    pub fn parse(alloc: Global, most: Option<NodeLimit>, text: &str) -> Result<Suite, SuiteFault>
        ensures exact { Gives suite_parts result (suite_of most text.now) }
        // A text that may be written for a suite is read as that suite.
        ensures reads_back { (suite : SuiteParts) → IsSuite most text.now suite → Gives suite_parts result (Ok suite) }
        // And no other text is read: each that is may be written for what was read.
        ensures written { IfOk result (λ suite. IsSuite most text.now (suite_parts suite)) }
        // Want of memory is no property of a text.
        ensures never { suite_of most text.now ≢ Err SuiteFault.NoMemory }
        // Each node's unique id is its parent's with one more segment, whose value is its name; of a
        // factory's k-th dynamic test `#k`.
        ensures ids { IfOk result (λ suite. IdsFollow suite.tree) }
        // Each line that declares a node makes one, in order: an engine, a class, a test, a factory or
        // a dynamic test, by the line's keyword, with that type in its unique id.
        ensures kinds { IfOk result (λ suite. AreNodesOf (IsKind suite.tree) suite.tree (words_of (lines text.now))) }
        // Which of these nodes have a body, and an after-body, and their numbers.
        ensures bodies { IfOk result (λ suite. AreNodesOf HasBodies suite.tree (words_of (lines text.now))) }
        // No dynamic test declares a lock, and no engine is a factory.
        ensures bare { IfOk result (λ suite. HasBareSpares suite.tree) }
        // Each body of the tree has one script, in the order of the nodes; behind these each
        // after-body has one, in the order of their lines.
        ensures answered { IfOk result (λ suite. AreBodiesOf suite.tree.nodes (bodies_answered suite.scripts.items)) }
        // Memory is taken only for a text that is not too large, behind lines that are read, and for a
        // line in which nothing is at fault that is judged before.
        ensures no_memory { IfErr result (λ fault. fault ≡ SuiteFault.NoMemory → (length text.now ≤ byte_limit most)
            × MayRunOut 1 (no_lines (node_limit most)) (lines text.now)) }
    {
        suite_in(alloc, most, text)
    }

    /// The suite that these bytes are; a byte order mark in front, U+FEFF, is passed over. Refusals:
    /// 103 for more than 1,048,576 of them, the mark's too, then 100 at the line of the first byte
    /// that is not UTF-8, else those of `parse`. Where so many nodes are asked for, 103 is for more
    /// than 16,777,216.
    pub fn read(alloc: Global, most: Option<NodeLimit>, bytes: &[u8]) -> Result<Suite, SuiteFault>
        ensures exact { Gives suite_parts result (suite_read most bytes.now) }
        // Bytes that may be written for a suite, behind a byte order mark or none, are read as that suite.
        ensures reads_back { IsUtf8 bytes.now → length bytes.now ≤ byte_limit most → (suite : SuiteParts) →
            IsSuite most (without_mark bytes.now) suite → Gives suite_parts result (Ok suite) }
        // And no other bytes are read.
        ensures written { IfOk result (λ suite. IsSuite most (without_mark bytes.now) (suite_parts suite)) }
        ensures bare { IfOk result (λ suite. HasBareSpares suite.tree) }
        // Memory is taken only for bytes that are a text, not too large a one, and as `parse` takes it.
        ensures no_memory { IfErr result (λ fault. fault ≡ SuiteFault.NoMemory → (length bytes.now ≤ byte_limit most)
            × IsUtf8 bytes.now × MayRunOut 1 (no_lines (node_limit most)) (lines (without_mark bytes.now))) }
    {
        suite_of_bytes(alloc, &most, bytes)
    }
}
