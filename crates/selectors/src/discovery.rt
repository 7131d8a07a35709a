//! Discovery: the tree of what a request selects.

ghost use Rattle.std.specs.Prelude.{◌≡◌, ◌≢◌, ◌<◌, ◌↔◌, ℕ, List, true, Some, None, IfOk, IfErr};
ghost use Rattle.descriptor.specs.Children.{ListsChildren};
ghost use Rattle.descriptor.specs.Nodes.{size, parent_of, IsTree};
ghost use Rattle.tag_expr.specs.TagSets.{has_tag};
ghost use Rattle.selectors.specs.ClassNames.{class_name, last_segment, name_below};
ghost use Rattle.selectors.specs.Filters.{tags_together, IsTagged};
ghost use Rattle.selectors.specs.Keeping.{stays, Stays};
ghost use Rattle.selectors.specs.Names.{covers, names, Covers, HasIdOrSpare, HasMatchingName};
ghost use Rattle.selectors.specs.Selections.{answer, is_selected, refusal, selects_nothing};
ghost use Rattle.selectors.specs.Shards.{shard_or_all};
ghost use Rattle.selectors.specs.declared.selector.Selector.{Selector};
ghost use Rattle.selectors.specs.declared.selector.Selector.TheVariants.{Uid, Name};
ghost use Rattle.tree_orders.specs.Orders.{seeded_or_same};
ghost use Rattle.unique_id.specs.declared.unique_id.Segment.{Segment};

use crate::found::Found;
use crate::kept::kept;
use crate::refusal::first_unmatched;
use crate::request::Request;
use crate::select_fault::SelectFault;
use crate::shard::Shard;
use crate::shard_tree::shard_of;
use crate::taken::taken;
use descriptor::Tree;
use std::alloc::{AllocError, Global};
use tree_orders::ordered_by_seed;

/// The tree of the tests and factories that the request selects, of the spares of these factories
/// and of what they are below, its nodes numbered anew, in their order and with their bodies. Where
/// all nodes are that, it is the same tree, and nothing is copied. Where the request asks for a shard,
/// the shard of that tree; that nothing is selected is told of the whole. Where it has a seed, that tree in
/// the seed's order.
///
/// Errors: refusal 41 for the first selector, and then for the first name, that covers no node of
/// the whole tree, at its number, names counted behind selectors; and else want of memory. An
/// exclusion that covers no node is none.
pub fn discover(alloc: Global, tree: Tree, request: &Request) -> Result<Found, SelectFault>
    ensures ok { IfOk result (λ found. found.tree ≡ answer tree request.now) }
    ensures nothing { IfOk result (λ found. found.is_nothing ≡ selects_nothing tree request.now) }
    ensures tree { IfOk result (λ found. IsTree found.tree) }
    ensures children { IfOk result (λ found. (n : ℕ) → ListsChildren found.tree n) }
    ensures accepted { IfOk result (λ _. refusal tree request.now ≡ None) }
    ensures refused { IfErr result (λ fault. fault ≢ SelectFault.NoMemory → refusal tree request.now ≡ Some fault) }
    ensures no_memory { IfErr result (λ fault. fault ≡ SelectFault.NoMemory → refusal tree request.now ≡ None) }
    // What covering, ids, patterns, class names, tags and staying come to.
    ensures covered { (selector : Selector) (n : ℕ) → n < size tree → (covers tree selector n ≡ true)
        ↔ Covers tree selector n }
    ensures ids { (id : List Segment) (n : ℕ) → n < size tree → (names tree (Uid id) n ≡ true)
        ↔ HasIdOrSpare tree id n }
    ensures patterns { (pattern : List ℕ) (n : ℕ) → n < size tree → (names tree (Name pattern) n ≡ true)
        ↔ HasMatchingName tree pattern n }
    ensures class_names { (n : ℕ) → 0 < n → n < size tree →
        class_name tree n ≡ name_below (class_name tree (parent_of tree n)) (last_segment tree n) }
    ensures tags { (tag : List ℕ) (n : ℕ) → n < size tree → (has_tag (tags_together tree n) tag ≡ true)
        ↔ IsTagged tree tag n }
    ensures stays { (n : ℕ) → n < size tree → (stays tree (is_selected tree request.now) n ≡ true)
        ↔ Stays tree (is_selected tree request.now) n }
{
    // the contract of `len` tells that it is a tree
    let _ = tree.len();
    find(alloc, tree, request)
}

/// The shard that is asked for, or the whole tree where none is.
fn shard_or_all(alloc: Global, tree: Tree, shard: &Option<Shard>) -> Result<Tree, AllocError>
    ensures ok { IfOk result (λ found. found ≡ shard_or_all tree shard.now) }
    ensures tree { IfOk result (λ found. IsTree tree → IsTree found) }
    ensures children { IfOk result (λ found. ((n : ℕ) → ListsChildren tree n) → (n : ℕ) → ListsChildren found n) }
{
    match shard {
        Some(shard) => shard_of(alloc, tree, shard),
        None => Ok(tree),
    }
}

/// The tree in the order of a seed, or as it is where there is none.
fn seeded_or_same(alloc: Global, tree: Tree, seed: Option<u64>) -> Result<Tree, AllocError>
    ensures ok { IfOk result (λ found. found ≡ seeded_or_same seed tree) }
    ensures tree { IfOk result (λ found. IsTree tree → IsTree found) }
    ensures children { IfOk result (λ found. ((n : ℕ) → ListsChildren tree n) → (n : ℕ) → ListsChildren found n) }
{
    match seed {
        Some(seed) => ordered_by_seed(alloc, tree, seed),
        None => Ok(tree),
    }
}

/// Of the tree of what is selected the shard that is asked for, in the order that is asked for.
fn answer_of(alloc: Global, tree: Tree, request: &Request) -> Result<Tree, AllocError>
    ensures ok { IfOk result (λ found. found ≡ seeded_or_same request.now.seed
        (shard_or_all tree request.now.shard)) }
    ensures tree { IfOk result (λ found. IsTree tree → IsTree found) }
    ensures children { IfOk result (λ found. ((n : ℕ) → ListsChildren tree n) → (n : ℕ) → ListsChildren found n) }
{
    let dealt = shard_or_all(alloc, tree, &request.shard)?;
    seeded_or_same(alloc, dealt, request.seed)
}

/// What the request finds in a tree.
fn find(alloc: Global, tree: Tree, request: &Request) -> Result<Found, SelectFault>
    requires { IsTree tree }
    ensures ok { IfOk result (λ found. found.tree ≡ answer tree request.now) }
    ensures nothing { IfOk result (λ found. found.is_nothing ≡ selects_nothing tree request.now) }
    ensures tree { IfOk result (λ found. IsTree found.tree) }
    ensures children { IfOk result (λ found. (n : ℕ) → ListsChildren found.tree n) }
    ensures accepted { IfOk result (λ _. refusal tree request.now ≡ None) }
    ensures refused { IfErr result (λ fault. fault ≢ SelectFault.NoMemory → refusal tree request.now ≡ Some fault) }
    ensures no_memory { IfErr result (λ fault. fault ≡ SelectFault.NoMemory → refusal tree request.now ≡ None) }
{
    if let Some(number) = first_unmatched(&tree, request) {
        return Err(SelectFault::NothingMatches(number));
    }
    let taken = taken(alloc, &tree, request)?;
    let keep = kept(&tree, taken);
    let selection = tree.into_pruned(alloc, keep.as_slice())?;
    let is_nothing = selection.len() == 1;
    let tree = answer_of(alloc, selection, request)?;
    Ok(Found { tree, is_nothing })
}
