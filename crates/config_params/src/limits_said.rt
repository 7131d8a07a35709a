//! How many nodes may hold a lock at once, by what parameters say.

ghost use Rattle.std.specs.Prelude.{◌≡◌, ◌++◌, ◌↔◌, ℕ, List, None, Some, IfOk, IfErr, OnOk, map};
ghost use Rattle.descriptor.specs.Nodes.{IsTree};
ghost use Rattle.resource_locks.specs.Limits.{limit_given};
ghost use Rattle.config_params.specs.Parameters.{answer_over};
ghost use Rattle.config_params.specs.LockKeys.{lock_limited};
ghost use Rattle.config_params.specs.LockLimits.{AreLimits, IsRefusedAs, can_limit, holders_of, limit_by};
ghost use Rattle.config_params.specs.LockLimits.{limit_said, limits_by, limits_fault, limits_refusal, lock_fault};
ghost use Rattle.config_params.specs.LockLimits.{value_fault};

use crate::limits_fault::LimitsFault;
use crate::lock_key::lock_limited;
use crate::numbers::holders_in;
use crate::params::{Params, get_over, limiting_keys};
use crate::settings_fault::SettingsFault;
use descriptor::Tree;
use resource_locks::{GLOBAL, KeyLimit, LockNames};
use std::alloc::Global;
use unique_id::Text;

/// Whether a lock can be limited where these are the locks of a tree: it is one of them, and not the global one.
fn can_limit(names: &LockNames, lock: &str) -> bool
    ensures { result ≡ can_limit names.now lock.now }
{
    GLOBAL != lock && names.has(lock)
}

/// How many nodes may hold a lock at once by the key that says it. Refused where its value is no number from 1 to 64
/// (35), and where the lock can have no limit (36).
fn holders_said(
    over: &Params,
    under: &Params,
    names: &LockNames,
    key: &str,
    lock: &str,
) -> Result<u8, SettingsFault>
    ensures holders { IfOk result (λ most. most ≡ holders_of (answer_over over.now under.now key.now)) }
    ensures accepted { OnOk result (value_fault (can_limit names.now lock.now)
        (answer_over over.now under.now key.now) ≡ None) }
    ensures refused { IfErr result (λ fault. value_fault (can_limit names.now lock.now)
        (answer_over over.now under.now key.now) ≡ Some fault) }
{
    let Some(value) = get_over(over, under, key) else {
        return Ok(0);
    };
    let Some(most) = holders_in(value) else {
        return Err(SettingsFault::BadHolders);
    };
    if can_limit(names, lock) {
        Ok(most)
    } else {
        Err(SettingsFault::UnknownLock)
    }
}

/// Appends the limit that a key says, if it is the key of a lock.
fn push_limit(
    alloc: Global,
    limits: &mut Vec<KeyLimit>,
    key: &str,
    over: &Params,
    under: &Params,
    names: &LockNames,
) -> Result<(), LimitsFault>
    ensures limit { OnOk result (limits.new.items ≡ limits.old.items
        ++ limit_by (answer_over over.now under.now) key.now (lock_limited key.now)) }
    ensures accepted { OnOk result (lock_fault (answer_over over.now under.now) names.now key.now
        (lock_limited key.now) ≡ None) }
    ensures refused { IfErr result (IsRefusedAs (lock_fault (answer_over over.now under.now) names.now key.now
        (lock_limited key.now))) }
{
    let Some(lock) = lock_limited(key) else {
        return Ok(());
    };
    let most = holders_said(over, under, names, key, lock)?;
    let key = Text::new(alloc, lock)?;
    limits.push(KeyLimit { key, most })?;
    Ok(())
}

/// Appends the limits that these keys say.
fn push_limits(
    alloc: Global,
    limits: &mut Vec<KeyLimit>,
    keys: &[&str],
    over: &Params,
    under: &Params,
    names: &LockNames,
) -> Result<(), LimitsFault>
    ensures limits { OnOk result (limits.new.items ≡ limits.old.items
        ++ limits_by (answer_over over.now under.now) (map (λ key. key.now) keys.now)) }
    ensures accepted { OnOk result (limits_fault (answer_over over.now under.now) names.now
        (map (λ key. key.now) keys.now) ≡ None) }
    ensures refused { IfErr result (IsRefusedAs (limits_fault (answer_over over.now under.now) names.now
        (map (λ key. key.now) keys.now))) }
{
    for key in keys {
        push_limit(alloc, limits, key, over, under, names)?;
    }
    Ok(())
}

/// How many nodes may hold each lock at once, by what parameters say that stand over others: what the first entry
/// of a lock says, and any number where there is none. Each key `nelborugy.lock.LOCK.holders` is judged, first those
/// of the parameters that stand over the others: refused is the first whose value is no number from 1 to 64 (35),
/// or whose lock no node of the tree names, or is the global one (36).
#[tactic(auto, using(crate::proofs::LockLimits::refused_exactly))]
pub fn lock_limits(
    alloc: Global,
    over: &Params,
    under: &Params,
    tree: &Tree,
) -> Result<Vec<KeyLimit>, LimitsFault>
    ensures limits { IfOk result (λ limits. (lock : List ℕ) →
        limit_given limits.items lock ≡ limit_said (answer_over over.now under.now) lock) }
    ensures accepted { OnOk result (limits_refusal over.now under.now tree.now ≡ None) }
    ensures refused { IfErr result (IsRefusedAs (limits_refusal over.now under.now tree.now)) }
    // Nothing is refused exactly if all that is said of holders are limits of locks that can have one.
    ensures sound { (limits_refusal over.now under.now tree.now ≡ None)
        ↔ AreLimits (answer_over over.now under.now) tree.now }
{
    let keys = limiting_keys(alloc, over, under)?;
    let mut limits = Vec::new(alloc);
    if keys.is_empty() {
        return Ok(limits);
    }
    let names = LockNames::of(alloc, tree)?;
    push_limits(alloc, &mut limits, &keys, over, under, &names)?;
    Ok(limits)
}
