//! Keys that only so many nodes may hold at once, and what that makes of execution modes.

ghost use Rattle.std.specs.Prelude.{◌≡◌, ◌<◌, ◌||◌, ◌==◌, IfOk, [], length, map, cond, slice_index_or};
ghost use Rattle.std.specs.List.{list_any};
ghost use Rattle.descriptor.specs.Nodes.{size};
ghost use Rattle.descriptor.specs.declared.mode.Mode.TheVariants.{SameThread};
ghost use Rattle.resource_locks.specs.Held.{table};
ghost use Rattle.resource_locks.specs.Limits.{first_limit, limit_given, any_limited, share_numbers, mode_below};

use crate::hoisting::parent;
use crate::lock_names::GLOBAL;
use descriptor::{Mode, Tree};
use std::alloc::{AllocError, Global};
use unique_id::Text;

/// How many nodes may hold a key at once.
#[derive(Drop)]
pub struct KeyLimit {
    /// What the resource is called.
    pub key: Text,
    /// How many nodes may hold the key at once; 0 is for any number.
    pub most: u8,
}

/// The limits of keys.
pub(crate) fn limits_of(
    alloc: Global,
    keys: &[Text],
    given: &[KeyLimit],
) -> Result<Vec<u8>, AllocError>
    ensures { IfOk result (λ limits. limits.items ≡ map (limit_given given.now) keys.now) }
{
    let mut limits = Vec::new(alloc);
    for key in keys {
        limits.push(limit_of(key.as_str(), given))?;
    }
    Ok(limits)
}

/// The limit that is given for a key; none for the global one.
fn limit_of(key: &str, given: &[KeyLimit]) -> u8
    ensures { result ≡ limit_given given.now key.now }
{
    if GLOBAL == key {
        0
    } else {
        first_limit(key, given)
    }
}

/// What the first entry of a key says.
fn first_limit(key: &str, given: &[KeyLimit]) -> u8
    ensures { result ≡ first_limit given.now key.now }
{
    let mut rest = given;
    while let Some((limit, more)) = rest.split_first() {
        if limit.key.as_str() == key {
            return limit.most;
        }
        rest = more;
    }
    0
}

/// The execution mode of each node, by those that were given, by the limits of keys, and by the numbers of the keys that
/// each node holds.
pub(crate) fn limited_modes(
    alloc: Global,
    tree: &Tree,
    limits: &[u8],
    numbers: &[Vec<u8>],
    given: &[Mode],
) -> Result<Vec<Mode>, AllocError>
    requires numbers { length numbers.now ≡ size tree.now }
    requires given { length given.now ≡ size tree.now }
    ensures { IfOk result (λ v. v.items ≡ table (mode_below tree.now
        (λ n. any_limited limits.now (slice_index_or (map (λ v. v.items) numbers.now) n []))
        (λ n. slice_index_or given.now n SameThread)) (size tree.now)) }
{
    let count = tree.len();
    let mut modes = vec![in alloc; given[0]]?;
    // whether a node at or above each holds a limited key
    let mut limited = vec![in alloc; are_limited(limits, &numbers[0])]?;
    for node in 1..count {
        let above = limited[parent(tree, node)];
        modes.push(mode_under(above, given[node]))?;
        limited.push(either(above, are_limited(limits, &numbers[node])))?;
    }
    Ok(modes)
}

/// The mode of a node, by whether a node above it holds a limited key.
fn mode_under(above: bool, mode: Mode) -> Mode
    ensures { result ≡ cond above SameThread mode }
{
    if above { Mode::SameThread } else { mode }
}

fn either(one: bool, other: bool) -> bool
    ensures { result ≡ (one || other) }
{
    one || other
}

/// Whether one of these keys is limited.
fn are_limited(limits: &[u8], numbers: &[u8]) -> bool
    ensures { result ≡ any_limited limits.now numbers.now }
{
    numbers
        .iter()
        .any(|number| 0 < limit_at(limits, usize::from(*number)))
}

/// Whether one of these keys is limited and among those.
pub(crate) fn share_limited(limits: &[u8], one: &[u8], other: &[u8]) -> bool
    ensures { result ≡ share_numbers limits.now one.now other.now }
{
    one.iter().any(|number| 0 < limit_at(limits, usize::from(*number))
        && has_number(other, *number))
}

fn has_number(numbers: &[u8], number: u8) -> bool
    ensures { result ≡ list_any (λ k. k == number) numbers.now }
{
    numbers.iter().any(|k| *k == number)
}

/// The limit of the key with this number; 0 if there is none.
pub(crate) fn limit_at(limits: &[u8], key: usize) -> u8
    ensures { result ≡ slice_index_or limits.now key 0 }
{
    if key < limits.len() { limits[key] } else { 0 }
}
