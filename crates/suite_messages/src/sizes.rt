//! What is said of a suite that is too large.

use descriptor::NodeLimit;
use std::alloc::{AllocError, Global};
use suite_words::node_limit;

/// A number below 1,000,000 in decimal, with a comma before the last three of its digits.
fn in_thousands(alloc: Global, number: usize) -> Result<String, AllocError> {
    let (thousands, rest) = (number / 1_000, number % 1_000);
    let (hundreds, tens, ones) = (rest / 100, rest / 10 % 10, rest % 10);
    format!(in alloc; "{thousands},{hundreds}{tens}{ones}")
}

/// What is said of the node that is one too many where so many nodes were asked for.
pub(crate) fn too_many_nodes(alloc: Global, most: Option<NodeLimit>) -> Result<String, AllocError> {
    let hint = match &most {
        None => "; --most-nodes N lets it have N, up to 16,383",
        Some(_) => "",
    };
    let allowed = in_thousands(alloc, node_limit(most).nodes())?;
    format!(in alloc; "with this node the suite has more than {allowed}{hint}")
}

/// What is said of too many bytes where so many nodes were asked for.
pub(crate) fn too_many_bytes(most: Option<NodeLimit>) -> &'static str {
    match most {
        None =>
            "A suite has at most 1,048,576 bytes; with --most-nodes N it may have 16,777,216.\n",
        Some(_) => "A suite has at most 16,777,216 bytes.\n",
    }
}
