//! What is wrong with how many nodes are to hold a lock at once.

use crate::nearest::push_nearest;
use config_params::{Params, SettingsFault, get_over, holders_in, limiting_keys, lock_limited};
use descriptor::{Lock, NodeId, Tree};
use resource_locks::{GLOBAL, LockNames};
use std::alloc::{AllocError, Global};

/// The first of these keys whose value is no number of holders, and its value.
fn first_unread<'a>(
    keys: &[&'a str],
    over: &'a Params,
    under: &'a Params,
) -> Option<(&'a str, &'a str)> {
    for key in keys {
        match get_over(over, under, key) {
            Some(value) if holders_in(value).is_none() => return Some((*key, value)),
            _ => {}
        }
    }
    None
}

/// Appends which of these keys has a value that is no number of holders, and what it may be.
fn push_unread(
    text: &mut String,
    keys: &[&str],
    over: &Params,
    under: &Params,
) -> Result<(), AllocError> {
    match first_unread(keys, over, under) {
        Some((key, value)) => write!(
            text,
            "{key} is {value:?}: it is a number from 1 to 64, with 1 or 2 digits\n"
        ),
        None => Ok(()),
    }
}

/// Appends the keys of these locks.
fn push_names<'a>(names: &mut Vec<&'a str>, locks: &'a [Lock]) -> Result<(), AllocError> {
    for lock in locks {
        names.push(lock.key.as_str())?;
    }
    Ok(())
}

/// The keys of the locks that the nodes of a tree declare, in order.
fn names_in<'a>(alloc: Global, tree: &'a Tree) -> Result<Vec<&'a str>, AllocError> {
    let mut names = Vec::new(alloc);
    for node in 0..tree.len() {
        push_names(&mut names, tree.locks(NodeId::new(node as u16)))?;
    }
    Ok(names)
}

/// The first of these keys whose lock is none of these or can have no limit, and its lock.
fn first_unknown<'a>(keys: &[&'a str], names: &LockNames) -> Option<(&'a str, &'a str)> {
    for key in keys {
        match lock_limited(key) {
            Some(lock) if lock == GLOBAL || !names.has(lock) => {
                return Some((*key, lock));
            }
            _ => {}
        }
    }
    None
}

/// Appends why the lock of a key can have no limit, where nodes declare locks of these names.
fn push_lock(
    alloc: Global,
    text: &mut String,
    names: &[&str],
    key: &str,
    lock: &str,
) -> Result<(), AllocError> {
    if lock == GLOBAL {
        return write!(
            text,
            "{key}: each node below an engine holds {GLOBAL}, so it has no limit\n"
        );
    }
    write!(text, "{key}: no node has a lock '{lock}'")?;
    push_nearest(alloc, text, names, lock)?;
    text.push_str("\n")
}

/// Appends which of these keys has a lock that no node of the tree declares, or that can have no limit.
fn push_unknown(
    alloc: Global,
    text: &mut String,
    keys: &[&str],
    tree: &Tree,
) -> Result<(), AllocError> {
    let names = names_in(alloc, tree)?;
    let known = LockNames::of(alloc, tree)?;
    match first_unknown(keys, &known) {
        Some((key, lock)) => push_lock(alloc, text, names.as_slice(), key, lock),
        None => Ok(()),
    }
}

/// Appends which key this refusal of the limits of locks is about, and what would be right, where some
/// parameters stand over others, and the nodes are those of this tree.
pub fn push_limit(
    alloc: Global,
    text: &mut String,
    fault: SettingsFault,
    over: &Params,
    under: &Params,
    tree: &Tree,
) -> Result<(), AllocError> {
    let keys = limiting_keys(alloc, over, under)?;
    match fault {
        SettingsFault::BadHolders => push_unread(text, keys.as_slice(), over, under),
        _ => push_unknown(alloc, text, keys.as_slice(), tree),
    }
}
