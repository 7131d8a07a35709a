//! Files of reports in memory.

ghost use Rattle.std.specs.Prelude.{None};

use crate::output::Output;
use report_files::ReportFiles;
use std::alloc::Global;
use std::io::{Error, ErrorKind, Result as IoResult};

/// How many bytes a file of `cut/` takes.
const FEW: usize = 10;

/// What stands under each name, the one kept first first. No file of `no/` can be opened, one of `cut/` takes a few
/// bytes and then fails, and one of `lost/` cannot be kept.
#[derive(Drop)]
pub(crate) struct MemoryFiles {
    alloc: Global,
    pub(crate) kept: Vec<u8>,
}

impl MemoryFiles {
    /// Nothing stands there.
    pub(crate) fn new(alloc: Global) -> MemoryFiles {
        MemoryFiles {
            alloc,
            kept: Vec::new(alloc),
        }
    }
}

impl ReportFiles for MemoryFiles {
    type File = Output;

    ghost deeds = { λ _. None };

    fn open(&mut self, name: &str) -> IoResult<Output> {
        if name.starts_with("no/") {
            return Err(Error::from(ErrorKind::NotFound));
        }
        let mut file = Output::new(self.alloc);
        if name.starts_with("cut/") {
            file.room = FEW;
        }
        Ok(file)
    }

    fn keep(&mut self, name: &str, file: &Output) -> IoResult<()> {
        if name.starts_with("lost/") {
            return Err(Error::from(ErrorKind::Other));
        }
        let title = format!(in self.alloc; "-- {name}\n")?;
        self.kept.extend_from_slice(title.as_bytes())?;
        self.kept.extend_from_slice(file.taken.as_slice())?;
        Ok(())
    }

    fn give_up(&mut self, _name: &str, _file: &Output) {}
}
