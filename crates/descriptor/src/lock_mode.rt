//! How a key is wanted.

/// How a resource lock is held: nodes that hold a key in READ may run side by side, a node that holds it in READ_WRITE
/// runs beside no other holder of the key.
#[derive(Clone, Copy, PartialEq, Eq, Debug)]
pub enum LockMode {
    /// The resource is read: others that read it may run at the same time.
    Read,
    /// The resource is read and written: nothing else that uses it may run at the same time.
    ReadWrite,
}
