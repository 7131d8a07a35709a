//! The forms of the lines of events.

/// The form of the line of an event.
#[derive(Clone, Copy)]
pub enum LineForm {
    /// A line of a feed.
    Feed,
    /// An object of JSON.
    Json,
}
