//! Text out to a writer.

ghost use Rattle.run_results.specs.Sending.{SendsExactly};

use std::io::Write;

/// The writer failed, or took nothing, when it had taken this many bytes (refusal 81).
#[derive(Clone, Copy)]
pub struct WriteFault {
    pub sent: usize,
}

/// Writes all the bytes, in order. The first error ends it, an interruption too, and so does a
/// writer that takes nothing (refusal 81, at the number of bytes that it has taken).
pub fn print_to<W: Write>(writer: &mut W, bytes: &[u8]) -> Result<(), WriteFault>
    ensures { SendsExactly (W.contents writer.old) (W.contents writer.new) bytes.now result }
{
    let mut sent = 0;
    while sent < bytes.len() {
        match writer.write(&bytes[sent..]) {
            Ok(0) => return Err(WriteFault { sent }),
            Ok(count) => sent += count,
            Err(_) => return Err(WriteFault { sent }),
        }
    }
    Ok(())
}
