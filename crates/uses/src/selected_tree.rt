//! Calls `selectors`: the tree of what one selector selects.

ghost use Rattle.std.specs.Prelude.{◌≡◌, [], ◌∷◌, None, IfOk};
ghost use Rattle.selectors.specs.declared.request.Request.{Request};
ghost use Rattle.selectors.specs.Selections.{answer};

use descriptor::Tree;
use selectors::{Found, Request, SelectFault, Selector, discover};
use std::alloc::Global;

/// The tests and factories that a selector covers, and what they are below.
pub fn select_by(alloc: Global, tree: Tree, selector: Selector) -> Result<Tree, SelectFault>
    ensures { IfOk result (λ found. (request : Request) × (request.selectors.items ≡ selector ∷ [])
        × (request.names.items ≡ []) × (request.rerun.items ≡ []) × (request.exclusions.items ≡ [])
        × (request.include.items ≡ []) × (request.exclude.items ≡ []) × (request.shard ≡ None) × (request.seed ≡ None)
        × (found ≡ answer tree request)) }
{
    let mut selectors = Vec::new(alloc);
    let Ok(()) = selectors.push(selector) else {
        return Err(SelectFault::NoMemory);
    };
    let request = Request {
        selectors,
        names: Vec::new(alloc),
        rerun: Vec::new(alloc),
        exclusions: Vec::new(alloc),
        include: Vec::new(alloc),
        exclude: Vec::new(alloc),
        shard: None,
        seed: None,
    };
    let Found {
        tree,
        is_nothing: _,
    } = discover(alloc, tree, &request)?;
    Ok(tree)
}
