//! How many nodes a suite may have, and how many bytes.

ghost use Rattle.std.specs.Prelude.{◌≡◌, ◌≤◌};
ghost use Rattle.suite_words.specs.Limits.{node_limit, byte_limit};

use descriptor::NodeLimit;

/// The greatest number of bytes of a suite's text, where no number of nodes was asked for.
pub const LONGEST_SUITE: usize = 1_048_576;

/// The same where one was.
const LONGEST_LARGE_SUITE: usize = 16_777_216;

/// How many nodes a suite may have besides the plan, where so many were asked for.
pub fn node_limit(most: Option<NodeLimit>) -> NodeLimit
    ensures exact { result ≡ node_limit most }
    ensures few { result ≤ 16383 }
{
    match most {
        None => NodeLimit::usual(),
        Some(most) => most,
    }
}

/// How many bytes a suite's text may have, where so many nodes were asked for.
pub fn byte_limit(most: Option<NodeLimit>) -> usize
    ensures exact { result ≡ byte_limit most }
    ensures few { result ≤ 16777216 }
{
    match most {
        None => LONGEST_SUITE,
        Some(_) => LONGEST_LARGE_SUITE,
    }
}
