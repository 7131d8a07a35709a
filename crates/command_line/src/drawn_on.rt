//! Whether how far a run has come can be drawn.

use std::env::{Env, var};
use std::io::IsTerminal;

/// Whether this stream is a terminal on which a line can be drawn anew, by the kind that the environment gives it.
pub fn is_drawn_on<R: Env + AllocGlobal, S: IsTerminal>(rt: &R, stream: &S) -> bool {
    if !stream.is_terminal() {
        return false;
    }
    match var(rt, "TERM") {
        Ok(kind) => !matches!(kind.as_str(), "" | "dumb"),
        Err(_) => false,
    }
}
