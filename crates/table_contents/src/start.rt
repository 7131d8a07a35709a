//! The words of the table at the start.

ghost use Rattle.std.specs.Prelude.{◌≡◌, ◌++◌, ℕ, [], IfOk, OnOk, replicate};
ghost use Rattle.descriptor.specs.Nodes.{size};
ghost use Rattle.resource_locks.specs.Held.{table};
ghost use Rattle.scheduling.specs.Inside.Start.{guard_and_children};
ghost use Rattle.scheduling.specs.Runs.{opening};
ghost use Rattle.table_rule.specs.Rings.{empty_ring};
ghost use Rattle.table_rule.specs.Words.{words_of};

use crate::words::status_to_word;
use descriptor::Tree;
use resource_locks::Plan;
use scheduling::{NodeStatus, counters_at_start};
use std::alloc::{AllocError, Global};

/// How many words stand unused before and behind each of the words that all workers look at, so
/// that no other word is in its line of the cache.
pub const GAP: usize = 7;

/// How many words those are, with all that stand unused round them.
const SHARED: usize = 3 + 4 * GAP;

/// So many words more, each 0.
fn push_zeros(words: &mut Vec<u64>, many: usize) -> Result<(), AllocError>
    ensures { OnOk result (words.new.items ≡ words.old.items ++ replicate many 0) }
{
    words.resize(words.len().saturating_add(many), 0)
}

/// The words of these counters, the results of which are all SUCCESSFUL.
fn push_counters(words: &mut Vec<u64>, counters: &[usize]) -> Result<(), AllocError>
    ensures { OnOk result (words.new.items ≡ words.old.items ++ counters.now) }
{
    for counter in counters {
        words.push(*counter as u64)?;
    }
    Ok(())
}

/// The words of the counters of a tree's nodes at the start.
fn push_first_counters(alloc: Global, tree: &Tree, words: &mut Vec<u64>) -> Result<(), AllocError>
    ensures { OnOk result (words.new.items ≡ words.old.items ++ table (guard_and_children tree.now) (size tree.now)) }
{
    let counters = counters_at_start(alloc, tree)?;
    push_counters(words, counters.as_slice())
}

/// The words at the start, in a list that has none.
fn push_words(
    alloc: Global,
    plan: &Plan,
    ring: usize,
    words: &mut Vec<u64>,
) -> Result<(), AllocError>
    requires { words.old.items ≡ [] }
    ensures { OnOk result ((workers : ℕ) → words.new.items ≡ words_of (empty_ring ring) (opening plan.now workers)) }
{
    words.push(status_to_word(NodeStatus::Ready(None)))?;
    push_zeros(words, plan.tree().len() - 1)?;
    push_first_counters(alloc, plan.tree(), words)?;
    push_zeros(words, plan.key_count() + SHARED)?;
    push_zeros(words, ring)
}

/// The words at the start: node 0 is offered, the counters have what is outstanding, and all else is 0.
pub(crate) fn words_at_start(
    alloc: Global,
    plan: &Plan,
    ring: usize,
) -> Result<Vec<u64>, AllocError>
    ensures { IfOk result (λ words. (workers : ℕ) → words.items ≡ words_of (empty_ring ring)
        (opening plan.now workers)) }
{
    let others = 2 * plan.tree().len() + plan.key_count() + SHARED;
    let mut words = Vec::with_capacity(alloc, ring.saturating_add(others))?;
    push_words(alloc, plan, ring, &mut words)?;
    Ok(words)
}
