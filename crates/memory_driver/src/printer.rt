//! The lines that tell from outside what is the call's.

use crate::said::Said;
use std::io::{Error, ErrorKind, Result as IoResult, Write};

/// Where the lines go. Behind a write that failed nothing is printed.
#[derive(Drop)]
pub(crate) struct Printer<W> {
    out: W,
    is_broken: bool,
}

impl<W: Write> Printer<W> {
    /// One that has printed nothing.
    pub(crate) fn new(out: W) -> Printer<W> {
        Printer {
            out,
            is_broken: false,
        }
    }

    /// Prints this text in one write.
    pub(crate) fn print(&mut self, text: &str) {
        if !self.is_broken {
            self.is_broken = self.out.write_all(text.as_bytes()).is_err();
        }
    }

    /// Says that what follows is handed in.
    pub(crate) fn given(&mut self) {
        self.print("given\n");
    }

    /// Says that the call begins.
    pub(crate) fn call(&mut self) {
        self.print("call\n");
    }

    /// Says that the call is over.
    pub(crate) fn answered(&mut self) {
        self.print("answered\n");
    }

    /// Prints what is said, if there was memory for all of it.
    pub(crate) fn say(&mut self, said: Said) {
        self.print(said.text());
        self.is_broken |= said.is_cut();
        drop(said)
    }

    /// Says what was answered.
    pub(crate) fn tell(&mut self, said: Said) {
        self.say(said);
        self.print("\n");
    }

    /// Whether all was printed.
    pub(crate) fn finish(&self) -> IoResult<()> {
        if self.is_broken {
            return Err(Error::from(ErrorKind::Other));
        }
        Ok(())
    }
}
