//! What of a suite is to be run again after a saved run.

ghost use Rattle.std.specs.Prelude.{◌≡◌, ◌++◌, IfOk, OnOk, option_to_list};
ghost use Rattle.std.specs.Option.{option_map};
ghost use Rattle.saved_runs.specs.RunAgain.{failed_ids, is_whole, done_id, done_ids};

use crate::related::is_done;
use crate::told::Told;
use std::alloc::{AllocError, Global};
use unique_id::UniqueId;

/// What of a suite is to be run again.
#[derive(Drop)]
pub enum Again {
    /// What these ids cover, and nothing else: the nodes that failed in a run that is told whole.
    Only(Vec<UniqueId>),
    /// All but what these ids cover: the tests and factories that are done in a run that was cut off.
    AllBut(Vec<UniqueId>),
}

/// Whether the run is told to its end.
pub(crate) fn is_whole(told: &[Told]) -> bool
    ensures { result ≡ is_whole told.now }
{
    for one in told {
        if one.is_plan_finish() {
            return true;
        }
    }
    false
}

/// Appends an id, if there is one.
fn push_id(alloc: Global, ids: &mut Vec<UniqueId>, id: Option<&UniqueId>) -> Result<(), AllocError>
    ensures { OnOk result (ids.new.items ≡ ids.old.items ++ option_to_list (option_map (λ i. i.now) id.entry)) }
{
    let Some(id) = id else {
        return Ok(());
    };
    ids.push(id.copy(alloc)?)?;
    Ok(())
}

/// The ids of the nodes that failed, in their order.
pub(crate) fn failed_ids(alloc: Global, told: &[Told]) -> Result<Vec<UniqueId>, AllocError>
    ensures { IfOk result (λ ids. ids.items ≡ failed_ids told.now) }
{
    let mut ids = Vec::new(alloc);
    for one in told {
        push_id(alloc, &mut ids, one.failed_id())?;
    }
    Ok(ids)
}

/// The node that ended without failing, where it need not run again.
fn done_id<'t>(failed: &[UniqueId], told: &'t Told) -> Option<&'t UniqueId>
    ensures { option_map (λ id. id.now) result ≡ done_id failed.now told.now }
{
    let id = told.passed_id()?;
    if is_done(failed, id) { Some(id) } else { None }
}

/// The ids of the nodes that need not run again after a run that was cut off, in the order of
/// their ends.
pub(crate) fn done_ids(alloc: Global, told: &[Told]) -> Result<Vec<UniqueId>, AllocError>
    ensures { IfOk result (λ ids. ids.items ≡ done_ids told.now) }
{
    let failed = failed_ids(alloc, told)?;
    let mut ids = Vec::new(alloc);
    for one in told {
        push_id(alloc, &mut ids, done_id(failed.as_slice(), one))?;
    }
    Ok(ids)
}
