//! Reports in files of the system.

ghost use Rattle.std.specs.Prelude.{None};

use crate::keeper::ReportFiles;
use std::alloc::Global;
use std::fs::{self, Files, Metadata, OpenFile, OpenOptions};
use std::io::{self, Error, ErrorKind, Write};
use std::os::unix::fs::MetadataExt;

/// A file that a report is written to.
#[derive(Drop)]
pub struct ReportFile<F: Write + Drop> {
    file: F,
    /// Its name until the report is kept; none, if it is written in place.
    beside: Option<String>,
}

impl<F: Write + Drop> Write for ReportFile<F> {
    fn write(&mut self, buf: &[u8]) -> io::Result<usize> {
        self.file.write(buf)
    }

    fn flush(&mut self) -> io::Result<()> {
        self.file.flush()
    }
}

/// Keeps each report in a file. It is written beside its place, as `NAME.unfinished`, and is renamed when all of it is
/// written: so who is killed leaves no part of a report under its name. What is there and is neither a file nor a
/// folder, as a pipe, is written in place.
#[derive(Drop)]
pub struct SystemFiles<'s, S: Files> {
    alloc: Global,
    system: &'s S,
}

impl<'s, S: Files> SystemFiles<'s, S> {
    /// Files of this system.
    pub fn new(alloc: Global, system: &'s S) -> SystemFiles<'s, S> {
        SystemFiles { alloc, system }
    }
}

/// Opens a file beside the place of this name. One that a run left which was killed is removed.
fn open_beside<S: Files>(alloc: Global, system: &S, name: &str) -> io::Result<ReportFile<S::File>> {
    let beside = format!(in alloc; "{name}.unfinished")?;
    let _ = fs::remove_file(system, beside.as_str());
    let file = fs::File::create_new(system, beside.as_str())?;
    Ok(ReportFile {
        file,
        beside: Some(beside),
    })
}

/// Opens what is there under this name, to be written in place.
fn open_in_place<S: Files>(system: &S, name: &str) -> io::Result<ReportFile<S::File>> {
    let file = OpenOptions::new().write(true).open(system, name)?;
    Ok(ReportFile { file, beside: None })
}

/// Whether these are of one file.
fn is_same(one: &Metadata, other: &Metadata) -> bool {
    one.dev() == other.dev() && one.ino() == other.ino()
}

/// Whether this file still has this name. Two names may lead to one place, and another report, or run, take it.
fn is_named<S: Files>(system: &S, file: &S::File, name: &str) -> bool {
    match (file.metadata(), fs::symlink_metadata(system, name)) {
        (Ok(own), Ok(there)) => is_same(&own, &there),
        _ => false,
    }
}

/// Renames a file, when all that was written is stored.
fn rename<S: Files>(system: &S, file: &S::File, from: &str, to: &str) -> io::Result<()> {
    file.sync_all()?;
    fs::rename(system, from, to)
}

/// Keeps a file that stands beside its place; one that cannot be kept is removed.
fn put_in_place<S: Files>(system: &S, file: &S::File, beside: &str, name: &str) -> io::Result<()> {
    if !is_named(system, file, beside) {
        return Err(Error::from(ErrorKind::NotFound));
    }
    let kept = rename(system, file, beside, name);
    if kept.is_err() {
        let _ = fs::remove_file(system, beside);
    }
    kept
}

impl<'s, S: Files> ReportFiles for SystemFiles<'s, S> {
    type File = ReportFile<S::File>;

    ghost deeds = { λ _. None };

    fn open(&mut self, name: &str) -> io::Result<ReportFile<S::File>> {
        match fs::metadata(self.system, name) {
            Ok(there) if there.is_dir() => Err(Error::from(ErrorKind::IsADirectory)),
            Ok(there) if !there.is_file() => open_in_place(self.system, name),
            Ok(_) | Err(_) => open_beside(self.alloc, self.system, name),
        }
    }

    fn keep(&mut self, name: &str, file: &ReportFile<S::File>) -> io::Result<()> {
        match &file.beside {
            Some(beside) => put_in_place(self.system, &file.file, beside.as_str(), name),
            None => Ok(()),
        }
    }

    fn give_up(&mut self, _name: &str, file: &ReportFile<S::File>) {
        if let Some(beside) = &file.beside {
            if is_named(self.system, &file.file, beside.as_str()) {
                let _ = fs::remove_file(self.system, beside.as_str());
            }
        }
    }
}
