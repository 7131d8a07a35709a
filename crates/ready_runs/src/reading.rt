//! The reading of a suite.

ghost use Rattle.std.specs.Prelude.{◌≡◌, IfOk, IfSome};
ghost use Rattle.resource_locks.specs.Spares.{HasBareSpares};
ghost use Rattle.suite_text.specs.Reading.Bytes.{suite_read};
ghost use Rattle.ready_runs.specs.Reading.{ReadsSuite, TakesFrom, fault_in, front_read, most_read};

use crate::bytes::read_front;
use descriptor::NodeLimit;
use launch_options::LaunchFault;
use std::alloc::Global;
use std::io::Read;
use suite_text::Suite;
use suite_words::byte_limit;

/// How many bytes of a suite are read at most where so many nodes were asked for: one more than a suite may have tells
/// that there are too many.
pub fn most_read(most: Option<NodeLimit>) -> usize
    ensures { result ≡ most_read most }
{
    byte_limit(most) + 1
}

/// The suite that a reader holds, with the usual number of nodes at most, or as many as were asked for. Refused are a
/// reader that fails (106) and what is no suite (10 to 17 and 100 to 103).
pub fn read_suite<R: Read>(
    alloc: Global,
    most: Option<NodeLimit>,
    reader: &mut R,
) -> Result<Suite, LaunchFault>
    ensures exact { IfSome (R.remaining reader.old)
        (λ bytes. ReadsSuite (front_read most bytes) result) }
    ensures reads { TakesFrom (most_read most) (R.remaining reader.old) (R.remaining reader.new) (fault_in result)
        (λ bytes. ReadsSuite (suite_read most bytes) result) }
    // No dynamic test declares a lock, and no engine is a factory.
    ensures bare { IfOk result (λ suite. HasBareSpares suite.tree) }
{
    let bytes = read_front(alloc, reader, most_read(most))?;
    Ok(Suite::read(alloc, most, bytes.as_slice())?)
}
