//! Texts in files of the system.

use crate::files::TextFiles;
use std::alloc::{AllocError, Global};
use std::fs::{self, File, Files};
use std::io::{self, ErrorKind, Read};

/// The texts of the files of a system, by their paths.
#[derive(Drop)]
pub struct SystemTexts<'s, S: Files + AllocGlobal> {
    system: &'s S,
}

impl<'s, S: Files + AllocGlobal> SystemTexts<'s, S> {
    /// The text files of this system.
    pub fn new(system: &'s S) -> SystemTexts<'s, S> {
        SystemTexts { system }
    }
}

/// The first so many bytes of the file of this name.
fn front_of<S: Files>(system: &S, alloc: Global, name: &str, most: usize) -> io::Result<Vec<u8>> {
    let mut bytes = Vec::new(alloc);
    let mut front = File::open(system, name)?.take(most as u64);
    front.read_to_end(&mut bytes)?;
    Ok(bytes)
}

impl<'s, S: Files + AllocGlobal> TextFiles for SystemTexts<'s, S> {
    fn text(&mut self, _alloc: Global, name: &str) -> Result<Option<String>, AllocError> {
        match fs::read_to_string(self.system, name) {
            Ok(text) => Ok(Some(text)),
            Err(error) => match error.kind() {
                ErrorKind::OutOfMemory => Err(AllocError),
                _ => Ok(None),
            },
        }
    }

    fn bytes(
        &mut self,
        alloc: Global,
        name: &str,
        most: usize,
    ) -> Result<Option<Vec<u8>>, AllocError> {
        match front_of(self.system, alloc, name, most) {
            Ok(bytes) => Ok(Some(bytes)),
            Err(error) => match error.kind() {
                ErrorKind::OutOfMemory => Err(AllocError),
                _ => Ok(None),
            },
        }
    }
}
