//! Calls `unique_id`: an id is read, gets one more segment, and is written.

ghost use Rattle.std.specs.Prelude.{◌≡◌, [], ◌∷◌, ◌++◌, IfOk, List, string_bytes};
ghost use Rattle.unique_id.specs.Grammar.{IsId};
ghost use Rattle.unique_id.specs.Spelling.{spelling};
ghost use Rattle.unique_id.specs.declared.unique_id.Segment.{Segment};

use std::alloc::Global;
use unique_id::{UidFault, UniqueId};

/// The canonical text of the id that `parent` is a text of, with one more segment.
pub fn child_text(alloc: Global, parent: &str, kind: &str, value: &str) -> Result<String, UidFault>
    ensures { IfOk result (λ text. (segments : List Segment) × IsId parent.now segments
        × (string_bytes text ≡ spelling (segments ++ record { kind = kind.now; value = value.now } ∷ []))) }
{
    let parent = UniqueId::parse(alloc, parent)?;
    let child = parent.append(alloc, kind, value)?;
    Ok(String::from_str(alloc, child.text())?)
}
