//! How a text is handed on while a run goes on.

ghost use Rattle.live.specs.Written.{IsSent};

use run_results::print_to;
use std::io::Write;

/// Hands this text to a writer; tells whether all of it stands there.
pub(crate) fn hand_on<E: Write>(writer: &mut E, text: &str) -> bool
    ensures { IsSent result (E.contents writer.old) (E.contents writer.new) text.now }
{
    match print_to(&mut *writer, text.as_bytes()) {
        Ok(()) => writer.flush().is_ok(),
        Err(_) => false,
    }
}
