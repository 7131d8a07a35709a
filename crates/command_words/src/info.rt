//! What arguments ask for in place of a run: the help, or the version.

ghost use Rattle.std.specs.Prelude.{◌≡◌, ◌≢◌, IfOk, map, option_map, string_bytes};
ghost use Rattle.clap.specs.Words.{kind_of};
ghost use Rattle.clap.specs.declared.error.kind.ErrorKind.TheVariants.{OutOfMemory};
ghost use Rattle.command_words.specs.Infos.{request_of, IsInfoAsked};

use crate::option_names::command;
use clap::error::ErrorKind;
use messages::Subject;
use std::alloc::{AllocError, Global};

/// The version: the latest date of CHANGELOG.md.
pub(crate) const VERSION: &str = "2026-12-01";

/// What help says after the options: the keys of the configuration.
const KEYS: &str = "
Keys of --config and --system that begin with junit.jupiter.execution.parallel.
  enabled, mode.default, mode.classes.default, config.strategy,
  config.fixed.parallelism, config.dynamic.factor
and whole keys
  nelborugy.slow.default, nelborugy.lock.LOCK.holders

";

/// What arguments may ask for in place of a run.
#[derive(Clone, Copy, Drop)]
pub enum InfoRequest {
    /// The options, each with its help: `--help`, `-h`.
    Help,
    /// The version: `--version`, `-V`.
    Version,
}

/// What arguments ask for in place of a run, and the text that is told for it.
#[derive(Drop)]
pub struct Info {
    pub request: InfoRequest,
    pub text: String,
}

/// What is asked for, if it is that which keeps clap from reading the arguments.
fn request_of(kind: ErrorKind) -> Option<InfoRequest>
    ensures { result ≡ request_of kind }
{
    match kind {
        ErrorKind::DisplayHelp => Some(InfoRequest::Help),
        ErrorKind::DisplayVersion => Some(InfoRequest::Version),
        _ => None,
    }
}

/// The options, as clap tells them, the keys of the configuration, and the version.
fn help_text(alloc: Global, said: &clap::Error) -> Result<String, AllocError> {
    format!(in alloc; "{said}{KEYS}Nelborugy {VERSION}\n")
}

/// The line of the version.
fn version_text(alloc: Global) -> Result<String, AllocError> {
    format!(in alloc; "Nelborugy {VERSION}\n")
}

/// The text that is told for what is asked, of which clap says this.
fn text_of(alloc: Global, request: InfoRequest, said: &clap::Error) -> Result<String, AllocError> {
    match request {
        InfoRequest::Help => help_text(alloc, said),
        InfoRequest::Version => version_text(alloc),
    }
}

/// What is asked for by arguments of which clap says this, unless it ran out of memory.
fn info_said(alloc: Global, said: &clap::Error) -> Result<Option<Info>, AllocError>
    ensures { IfOk result (λ info. (kind_of said.now ≢ OutOfMemory)
        × (option_map (λ i. i.request) info ≡ request_of (kind_of said.now))) }
{
    if let ErrorKind::OutOfMemory = said.kind() {
        return Err(AllocError);
    }
    match request_of(said.kind()) {
        Some(request) => Ok(Some(Info {
            request,
            text: text_of(alloc, request, said)?,
        })),
        None => Ok(None),
    }
}

/// What these arguments ask for in place of a run, if they do: the help of what is run here, or the version. The first
/// argument is the program's name. Arguments that are read, or that clap refuses for another reason before it comes to
/// it, ask for neither.
pub fn info_asked(
    alloc: Global,
    words: &[String],
    subject: Subject<'_>,
) -> Result<Option<Info>, AllocError>
    ensures { IfOk result (λ info. IsInfoAsked (map string_bytes words.now) (option_map (λ i. i.request) info)) }
{
    match command(alloc, subject)?.try_get_matches_from(words) {
        Ok(_) => Ok(None),
        Err(said) => info_said(alloc, &said),
    }
}
