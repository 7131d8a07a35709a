//! What a line of a saved run tells.

ghost use Rattle.std.specs.Prelude.{◌≡◌, ◌==◌, length, cond, Some, None, IfOk};
ghost use Rattle.std.specs.Option.{option_map};
ghost use Rattle.saved_runs.specs.Telling.{status_named, what_by, plan_told, told_by, node_told};
ghost use Rattle.saved_runs.specs.Telling.{is_plan_finish, is_failure, is_pass, failed_id, passed_id};

use plan_events::Status;
use std::alloc::{AllocError, Global};
use unique_id::{UidFault, UniqueId};

/// What happened to a node.
#[derive(Clone, Copy)]
pub enum What {
    Started,
    Registered,
    Skipped,
    Finished(Status),
}

impl What {
    /// Whether it ended the node, which failed.
    fn is_failure(self) -> bool
        ensures { result ≡ is_failure self }
    {
        match self {
            What::Finished(status) => status == Status::Failed,
            _ => false,
        }
    }

    /// Whether it ended the node, which did not fail.
    fn is_pass(self) -> bool
        ensures { result ≡ is_pass self }
    {
        match self {
            What::Started | What::Registered => false,
            What::Skipped => true,
            What::Finished(status) => status != Status::Failed,
        }
    }
}

/// What a line of a saved run tells.
#[derive(Drop)]
pub enum Told {
    /// The plan was started.
    PlanStarted,
    /// The plan was finished, and so the run is told whole.
    PlanFinished,
    /// What happened to the node of this id.
    Node { id: UniqueId, what: What },
    /// What was warned of, or a schedule.
    Note,
}

/// The status of this name.
fn status_named(word: &str) -> Option<Status>
    ensures { result ≡ status_named word.now }
{
    match word {
        "SUCCESSFUL" => Some(Status::Successful),
        "ABORTED" => Some(Status::Aborted),
        "FAILED" => Some(Status::Failed),
        _ => None,
    }
}

/// What happened where no status may be told with it.
fn without_status(what: What, status: &str) -> Option<What>
    ensures { result ≡ cond (length status.now == 0) (Some what) None }
{
    if status.is_empty() { Some(what) } else { None }
}

/// What happened, by its name and the status that is told with it.
fn what_by(word: &str, status: &str) -> Option<What>
    ensures { result ≡ what_by word.now status.now }
{
    match word {
        "started" => without_status(What::Started, status),
        "registered" => without_status(What::Registered, status),
        "skipped" => Some(What::Skipped),
        "finished" => match status_named(status) {
            Some(status) => Some(What::Finished(status)),
            None => None,
        },
        _ => None,
    }
}

/// What happened to the plan, by its name.
pub(crate) fn plan_told(word: &str) -> Option<Told>
    ensures { result ≡ plan_told word.now }
{
    match word {
        "started" => Some(Told::PlanStarted),
        "finished" => Some(Told::PlanFinished),
        _ => None,
    }
}

/// What is told of the node whose id this text spells, if it spells one.
fn told_by(alloc: Global, id: &str, what: What) -> Result<Option<Told>, AllocError>
    ensures { IfOk result (λ told. told ≡ told_by what id.now) }
{
    match UniqueId::parse(alloc, id) {
        Ok(id) => Ok(Some(Told::Node { id, what })),
        Err(UidFault::NoMemory) => Err(AllocError),
        Err(_) => Ok(None),
    }
}

/// What is told of a node, by the name of what happened, the text of its id, and its status.
pub(crate) fn node_told(
    alloc: Global,
    word: &str,
    id: &str,
    status: &str,
) -> Result<Option<Told>, AllocError>
    ensures { IfOk result (λ told. told ≡ node_told word.now id.now status.now) }
{
    match what_by(word, status) {
        Some(what) => told_by(alloc, id, what),
        None => Ok(None),
    }
}

impl Told {
    /// Whether it is the plan's finish.
    pub(crate) fn is_plan_finish(&self) -> bool
        ensures { result ≡ is_plan_finish self.now }
    {
        matches!(self, Told::PlanFinished)
    }

    /// The node that failed, if it tells of one.
    pub(crate) fn failed_id(&self) -> Option<&UniqueId>
        ensures { option_map (λ id. id.now) result ≡ failed_id self.now }
    {
        match self {
            Told::Node { id, what } => { if what.is_failure() { Some(id) } else { None } }
            _ => None,
        }
    }

    /// The node that ended without failing, if it tells of one.
    pub(crate) fn passed_id(&self) -> Option<&UniqueId>
        ensures { option_map (λ id. id.now) result ≡ passed_id self.now }
    {
        match self {
            Told::Node { id, what } => { if what.is_pass() { Some(id) } else { None } }
            _ => None,
        }
    }
}
