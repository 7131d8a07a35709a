//! The modes that a run gives the nodes of its tree.

ghost use Rattle.std.specs.Prelude.{◌≡◌, ◌<◌, ℕ, Some, false, true, length, replicate, slice_get, IfOk};
ghost use Rattle.config_params.specs.declared.settings.Settings.{Settings};
ghost use Rattle.descriptor.specs.declared.mode.Mode.{Mode};
ghost use Rattle.descriptor.specs.declared.mode.Mode.TheVariants.{SameThread};
ghost use Rattle.descriptor.specs.Nodes.{size, mode_of, IsTree, IsChild};
ghost use Rattle.config_params.specs.GivenModes.{given_mode, given_modes, AreGiven};
ghost use Rattle.config_params.specs.Nearest.{nearest_mode};

use crate::Settings;
use crate::nearest::nearest_mode;
use descriptor::{Mode, NodeId, Tree};
use std::alloc::{AllocError, Global};

/// The mode of a node, where the nearest mode that is declared at or above it is known.
fn given_mode(tree: &Tree, settings: &Settings, nearest: Option<Mode>, node: NodeId) -> Mode
    requires tree { IsTree tree.now }
    requires inside { node < size tree.now }
    requires nearest { nearest ≡ nearest_mode tree.now node }
    ensures { result ≡ given_mode tree.now settings.now node }
{
    if !settings.parallel {
        return Mode::SameThread;
    }
    let Some(parent) = tree.parent(node) else {
        return Mode::SameThread;
    };
    let Some(above) = tree.parent(parent) else {
        return Mode::SameThread;
    };
    let default = if above == NodeId::ROOT {
        settings.classes_mode
    } else {
        settings.default_mode
    };
    nearest.unwrap_or(default)
}

/// The execution mode of each node of a tree, from node 0, where a run has these settings, before
/// any lock is looked at: the JUnit 5 User Guide, "Parallel Execution". A tree and settings are
/// never refused. Takes one pass over the nodes.
pub fn modes(alloc: Global, tree: &Tree, settings: &Settings) -> Result<Vec<Mode>, AllocError>
    ensures exact { IfOk result (λ modes. modes.items ≡ given_modes tree.now settings.now) }
    ensures one_each { IfOk result (λ modes. length modes.items ≡ size tree.now) }
    // Each node has the mode that the rules give it, and they give it no other.
    ensures right { IfOk result (λ modes. AreGiven tree.now settings.now modes.items) }
    // Where parallel execution is not enabled nothing leaves its parent's thread, whatever is declared.
    ensures off { IfOk result (λ modes. settings.now.parallel ≡ false → modes.items ≡ replicate (size tree.now)
        SameThread) }
    // Else a node that declares a mode has that mode.
    ensures own { IfOk result (λ modes. settings.now.parallel ≡ true → (n : ℕ) (mode : Mode) →
        mode_of tree.now n ≡ Some mode → slice_get modes.items n ≡ Some mode) }
    // Engines are executed in the thread of the plan.
    ensures engines { IfOk result (λ modes. (e : ℕ) → IsChild tree.now 0 e →
        slice_get modes.items e ≡ Some SameThread) }
{
    let mut nearest = Vec::with_capacity(alloc, tree.len())?;
    let mut modes = Vec::with_capacity(alloc, tree.len())?;
    for number in 0..tree.len() {
        let node = NodeId::new(number as u16);
        let here = nearest_mode(tree, nearest.as_slice(), node);
        nearest.push(here)?;
        modes.push(given_mode(tree, settings, here, node))?;
    }
    Ok(modes)
}
