//! The two signs that join operands.

/// What joins operands: `&` binds tighter than `|`.
#[derive(Clone, Copy)]
pub(crate) enum Connective {
    And,
    Or,
}
