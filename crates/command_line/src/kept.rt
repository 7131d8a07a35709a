//! Where a suite is read from, and a reader that keeps what it gave.

ghost use Rattle.command_line.specs.Sources.{source_remaining};

use std::io::{self, Read};

/// Where a suite is read from.
#[derive(Drop)]
pub(crate) enum SuiteSource<'r, R> {
    /// What is left of this reader.
    Reader(&'r mut R),
    /// The bytes of a file that are left.
    File(&'r [u8]),
}

impl<R: Read> Read for SuiteSource<'_, R> {
    ghost remaining = { source_remaining R.remaining };

    fn read(&mut self, buf: &mut [u8]) -> io::Result<usize> {
        match self {
            SuiteSource::Reader(reader) => reader.read(buf),
            SuiteSource::File(bytes) => bytes.read(buf),
        }
    }
}

/// A source of bytes, and the bytes that it gave; what there was no memory for is not kept.
#[derive(Drop)]
pub(crate) struct Kept<'r, R> {
    pub(crate) source: SuiteSource<'r, R>,
    pub(crate) bytes: Vec<u8>,
}

impl<R: Read> Read for Kept<'_, R> {
    ghost remaining = { λ kept. source_remaining R.remaining kept.source };

    fn read(&mut self, buf: &mut [u8]) -> io::Result<usize> {
        let count = self.source.read(buf)?;
        if let Some(given) = buf.get(..count) {
            let _ = self.bytes.extend_from_slice(given);
        }
        Ok(count)
    }
}
