//! What a message speaks of.

/// What is run, as a message speaks of it.
#[derive(Clone, Copy)]
pub enum Subject<'a> {
    /// A suite of these bytes.
    Suite(&'a [u8]),
    /// Tests of a program's own. This is what is said of their settings where these are refused:
    /// `said_of_settings` makes it before the run.
    Tests(&'a str),
}
