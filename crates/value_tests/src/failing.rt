//! Writers that fail.

ghost use Rattle.std.specs.Prelude.{Some};

use std::io::{Error, ErrorKind, Result as IoResult, Write};

/// What a writer does where it has no room left.
#[derive(Clone, Copy)]
pub enum Full {
    IsInterrupted,
    Fails,
    /// It fails, and takes all that is written afterwards.
    FailsOnce,
    TakesNothing,
}

/// Takes so many bytes, a few at a time, and then does this.
#[derive(Drop)]
pub struct Failing {
    pub taken: Vec<u8>,
    pub room: usize,
    pub step: usize,
    pub full: Full,
}

impl Write for Failing {
    ghost contents = { λ f. Some f.taken.items };

    fn write(&mut self, buf: &[u8]) -> IoResult<usize> {
        if self.room == 0 {
            return match self.full {
                Full::IsInterrupted => Err(Error::from(ErrorKind::Interrupted)),
                Full::Fails => Err(Error::from(ErrorKind::Other)),
                Full::FailsOnce => {
                    self.room = usize::MAX;
                    Err(Error::from(ErrorKind::Other))
                }
                Full::TakesNothing => Ok(0),
            };
        }
        let count = buf.len().min(self.room).min(self.step);
        self.taken.extend_from_slice(&buf[..count])?;
        self.room -= count;
        Ok(count)
    }

    fn flush(&mut self) -> IoResult<()> {
        Ok(())
    }
}
