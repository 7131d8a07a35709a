//! Bytes in from a reader.

ghost use Rattle.std.specs.Prelude.{◌≡◌, take, IfOk, IfErr, IfSome};
ghost use Rattle.ready_runs.specs.Bytes.{ReadsFront, BreaksOff};
ghost use Rattle.ready_runs.specs.Reading.{IsReadFault};
ghost use Rattle.ready_runs.specs.declared.bytes.ReadFault.TheVariants.{NoMemory};

use launch_options::LaunchFault;
use std::alloc::{AllocError, Global};
use std::io::Read;

/// How many bytes one read asks for at most.
const BUFFER_SIZE: usize = 4096;

/// Why the front of a reader was not read.
#[derive(Clone, Copy, PartialEq, Eq)]
pub enum ReadFault {
    NoMemory,
    /// The reader failed (refusal 106).
    Failed,
}

impl From<AllocError> for ReadFault {
    ghost from_gives = { λ _ fault. fault ≡ NoMemory };

    fn from(_error: AllocError) -> ReadFault {
        ReadFault::NoMemory
    }
}

impl From<ReadFault> for LaunchFault {
    ghost from_gives = { IsReadFault };

    fn from(fault: ReadFault) -> LaunchFault {
        match fault {
            ReadFault::NoMemory => LaunchFault::NoMemory,
            ReadFault::Failed => LaunchFault::Reading,
        }
    }
}

/// The reader's next bytes, at most `most`: fewer only where it ends. The first error of the
/// reader ends it (refusal 106).
pub fn read_front<R: Read>(alloc: Global, reader: &mut R, most: usize) -> Result<Vec<u8>, ReadFault>
    ensures reads { IfOk result (λ v. ReadsFront (R.remaining reader.old) (R.remaining reader.new) most v.items) }
    ensures broken { IfErr result (λ _. BreaksOff (R.remaining reader.old) (R.remaining reader.new) most) }
    ensures front { IfOk result (λ v. IfSome (R.remaining reader.old) (λ bytes. v.items ≡ take most bytes)) }
{
    let mut bytes = Vec::new(alloc);
    let mut buffer = [0u8; BUFFER_SIZE];
    while bytes.len() < most {
        let want = (most - bytes.len()).min(buffer.len());
        // room first, so that nothing is read for which there is none
        bytes.reserve(want)?;
        match reader.read(&mut buffer[..want]) {
            Ok(0) => return Ok(bytes),
            Ok(count) => bytes.extend_from_slice(&buffer[..count]).unwrap(),
            Err(_) => return Err(ReadFault::Failed),
        }
    }
    Ok(bytes)
}
