//! Calls `modes` of config_params: the mode of one node under the settings of a run.

ghost use Rattle.std.specs.Prelude.{◌<◌, IfOk};
ghost use Rattle.descriptor.specs.Nodes.{size};
ghost use Rattle.config_params.specs.GivenModes.{IsGiven};

use config_params::{Settings, modes};
use descriptor::{Mode, NodeId, Tree};
use std::alloc::{AllocError, Global};

/// The mode that the rules give a node.
pub fn mode_given(
    alloc: Global,
    tree: &Tree,
    settings: &Settings,
    node: NodeId,
) -> Result<Mode, AllocError>
    requires { node < size tree.now }
    ensures { IfOk result (λ mode. IsGiven tree.now settings.now node mode) }
{
    let given = modes(alloc, tree, settings)?;
    Ok(given[node.index()])
}
