//! Calls `suite_text`: a suite is read.

ghost use Rattle.std.specs.Prelude.{◌≡◌, IfOk, None};
ghost use Rattle.descriptor.specs.Nodes.{size};
ghost use Rattle.suite_text.specs.Reading.Parts.{SuiteParts};
ghost use Rattle.suite_text.specs.Writing.Suites.{IsSuite};

use std::alloc::Global;
use suite_text::{Suite, SuiteFault};

/// How many nodes the suite of a text has, the plan included, where no number of nodes was asked for.
pub fn node_count(alloc: Global, text: &str) -> Result<usize, SuiteFault>
    ensures { (suite : SuiteParts) → IsSuite None text.now suite → IfOk result (λ count. count ≡ size suite.tree) }
{
    let suite = Suite::parse(alloc, None, text)?;
    Ok(suite.tree.len())
}
