//! What the rows are answered with: an output that may fail.

use std::alloc::{AllocError, Global};
use std::io::{Error, ErrorKind, Result as IoResult, Write};

/// Takes what the program writes as long as there is room for it, and then fails.
#[derive(Drop)]
pub(crate) struct Output {
    pub(crate) taken: Vec<u8>,
    /// How many bytes more the program may write.
    pub(crate) room: usize,
}

impl Output {
    /// One that has taken nothing, and has room for all.
    pub(crate) fn new(alloc: Global) -> Output {
        Output {
            taken: Vec::new(alloc),
            room: usize::MAX,
        }
    }

    /// Appends what the table itself says, whatever the room.
    pub(crate) fn push(&mut self, said: &[u8]) -> Result<(), AllocError> {
        self.taken.extend_from_slice(said)
    }
}

impl Write for Output {
    fn write(&mut self, buf: &[u8]) -> IoResult<usize> {
        if self.room == 0 {
            return Err(Error::from(ErrorKind::Other));
        }
        let count = buf.len().min(self.room);
        self.taken.extend_from_slice(&buf[..count])?;
        self.room -= count;
        Ok(count)
    }

    fn flush(&mut self) -> IoResult<()> {
        Ok(())
    }
}
