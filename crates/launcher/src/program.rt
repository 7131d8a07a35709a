//! A program of one's own that is launched.

use config_params::Params;
use descriptor::{BodyId, Tree};
use run_table::Jobs;

/// What a program has to be launched: a tree, what it says of the configuration below the options, a job for each body
/// and each after-body of the tree, and from how many milliseconds on bodies of these numbers are slow.
#[derive(Drop)]
pub struct Program<B> {
    pub tree: Tree,
    pub properties: Params,
    pub jobs: Jobs<B>,
    pub slow: Vec<(BodyId, u32)>,
}
