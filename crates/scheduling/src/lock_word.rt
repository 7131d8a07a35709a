//! The word of a key.

/// Who holds a key.
#[derive(Clone, Copy)]
pub enum LockWord {
    /// So many nodes hold it in READ.
    Readers(u16),
    /// One node holds it in READ_WRITE.
    Written,
}
