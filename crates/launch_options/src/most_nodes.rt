//! What `--most-nodes` asks for.

ghost use Rattle.std.specs.Prelude.{◌≡◌, ◌≢◌, Some, IfOk, IfErr};
ghost use Rattle.launch_options.specs.declared.fault.LaunchFault.TheVariants.{NoMemory};
ghost use Rattle.launch_options.specs.Asked.{unless_named};
ghost use Rattle.launch_options.specs.Given.{maybe_behind};
ghost use Rattle.launch_options.specs.NodeLimits.{most_nodes_named as most_of_name, nodes_in};

use crate::fault::LaunchFault;
use descriptor::NodeLimit;
use suite_words::number_up_to;

/// The least number of nodes that may be asked for: as many as there may be where nobody asks.
const FEWEST_NODES: u32 = 4_095;

/// The greatest number of nodes that may be asked for: as many as any tree may have.
const MOST_NODES: u32 = 16_383;

/// How many nodes besides the plan a text names, if so many may be asked for.
fn nodes_in(text: &str) -> Option<NodeLimit>
    ensures { result ≡ nodes_in text.now }
{
    match number_up_to(MOST_NODES, text) {
        Some(number) => {
            if number < FEWEST_NODES {
                None
            } else {
                NodeLimit::new(number as u16)
            }
        }
        None => None,
    }
}

/// What `--most-nodes` asks for, if it is given: a number of nodes from 4,095 to 16,383, in digits alone.
pub fn most_nodes_named(text: Option<&str>) -> Result<Option<NodeLimit>, LaunchFault>
    ensures named { IfOk result (λ most. most_of_name (maybe_behind text.entry) ≡ Some most) }
    ensures refused { IfErr result (λ fault. unless_named (most_of_name (maybe_behind text.entry)) ≡ Some fault) }
    ensures real { IfErr result (λ fault. fault ≢ NoMemory) }
{
    let Some(text) = text else {
        return Ok(None);
    };
    match nodes_in(text) {
        Some(limit) => Ok(Some(limit)),
        None => Err(LaunchFault::BadWords),
    }
}
