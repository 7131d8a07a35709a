//! What is said of a token that may not stand where it does.

use crate::nearest::nearest_known;
use std::alloc::{AllocError, Global};

/// A place of a line, and what is said of a token that may not stand there.
#[derive(Clone, Copy)]
pub(crate) struct Place<'a> {
    /// What is wrong with it.
    pub(crate) said: &'a str,
    /// What may stand there, which is said if nothing is known to be meant by the token.
    pub(crate) right: &'a str,
    /// The tokens that may stand there.
    pub(crate) known: &'a [&'a str],
    /// What is said if none of them is near.
    pub(crate) otherwise: &'a str,
}

impl Place<'_> {
    /// Appends what is wrong with this token, and what is meant by it, if that is known, or which known
    /// token is nearest. Answers whether there is such a token.
    pub(crate) fn push_said(
        self,
        alloc: Global,
        text: &mut String,
        word: &str,
        meant: Option<&str>,
    ) -> Result<bool, AllocError> {
        text.push_str(self.said)?;
        if let Some(meant) = meant {
            write!(text, "; {meant}")?;
            return Ok(true);
        }
        text.push_str(self.right)?;
        if let Some(name) = nearest_known(alloc, self.known, word)? {
            write!(text, "; did you mean '{name}'?")?;
            return Ok(true);
        }
        text.push_str(self.otherwise)?;
        Ok(false)
    }
}
