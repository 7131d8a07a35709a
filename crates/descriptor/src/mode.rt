//! Execution modes.

/// Which thread executes a node where tests are executed in parallel.
#[derive(Clone, Copy, PartialEq, Eq, Debug)]
pub enum Mode {
    /// Forces execution in the thread that the parent uses.
    SameThread,
    /// Executes at the same time as other nodes, unless a resource lock forces execution in the same thread.
    Concurrent,
}
