//! Where a parameter comes from.

/// Where a parameter comes from. What an earlier source says hides what a later one says.
#[derive(Clone, Copy, Drop)]
pub enum Source {
    /// The request of a run.
    Request,
    /// The system that it runs on.
    System,
    /// A text of properties.
    File,
}
