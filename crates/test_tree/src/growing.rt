//! A tree that grows by a node, with its job.

ghost use Rattle.std.specs.Prelude.{◌≡◌, ◌≢◌, ◌<◌, true, false, ◌==◌, cond, ◌+◌, ◌++◌, ◌∷◌, [], Some, None, length, option_map, IfOk, IfErr, OnOk, OnErr, vec_len, vec_capacity};
ghost use Rattle.descriptor.specs.Nodes.{IsTree, MayTake, appended, size};
ghost use Rattle.descriptor.specs.Refusals as trees;
ghost use Rattle.suite_words.specs.Reading.Nodes.{id_at, value_of_dyn, next_place};
ghost use Rattle.unique_id.specs.Spelling as ids;
ghost use Rattle.descriptor.specs.declared.fault.TreeFault.{TreeFault as TreeFaultValue};
ghost use Rattle.unique_id.specs.declared.fault.UidFault.{UidFault as UidFaultValue};
ghost use Rattle.test_bodies.specs.Bodies.{is_spent, with_test};
ghost use Rattle.test_tree.specs.Growing.{built, grown, job_of, IsNodeRefused, IsNodeTaken, changed};
ghost use Rattle.test_tree.specs.Jobs.{are_fresh};
ghost use Rattle.test_tree.specs.Sorts.{type_of, value_below};
ghost use Rattle.test_tree.specs.Marks.{marked};

use crate::cause::BuildCause;
use crate::marks::Marks;
use crate::sort::Sort;
use descriptor::{BodyId, Node, NodeId, NodeLimit, Tree, TreeBuilder, TreeFault};
use run_table::Jobs;
use std::alloc::Global;
use test_bodies::Body;
use unique_id::{UidFault, UniqueId};

/// The unique id of a node of this type and value below this one.
fn id_of(
    alloc: Global,
    tree: &Tree,
    parent: NodeId,
    segment: &str,
    value: &str,
) -> Result<UniqueId, UidFault>
    requires { parent < size tree.now }
    ensures ok { IfOk result (λ id. id ≡ id_at tree.now parent ++ record { kind = segment.now; value = value.now } ∷ []) }
    ensures accepted { IfOk result (λ _. ids.refusal (id_at tree.now parent) segment.now value.now ≡ None) }
    ensures refused { IfErr result (λ fault. fault ≢ UidFault.NoMemory →
        ids.refusal (id_at tree.now parent) segment.now value.now ≡ Some fault) }
{
    if parent == NodeId::ROOT {
        return UniqueId::of(alloc, segment, value);
    }
    tree.node(parent).id.append(alloc, segment, value)
}

/// Which of its parent's children the next one is, from 1.
fn next_place(tree: &Tree, parent: NodeId) -> usize
    requires { parent < size tree.now }
    ensures { result ≡ next_place tree.now parent }
{
    tree.children(parent).len() + 1
}

/// The unique id of the next node below this one.
fn next_id(
    alloc: Global,
    tree: &Tree,
    parent: NodeId,
    sort: Sort,
    name: &str,
) -> Result<UniqueId, UidFault>
    requires { parent < size tree.now }
    ensures ok { IfOk result (λ id. id ≡ id_at tree.now parent
        ++ record { kind = type_of sort; value = value_below tree.now parent sort name.now } ∷ []) }
    ensures accepted { IfOk result (λ _. ids.refusal (id_at tree.now parent) (type_of sort)
        (value_below tree.now parent sort name.now) ≡ None) }
    ensures refused { IfErr result (λ fault. fault ≢ UidFault.NoMemory → ids.refusal (id_at tree.now parent)
        (type_of sort) (value_below tree.now parent sort name.now) ≡ Some fault) }
{
    let segment = sort.segment_type();
    if let Sort::Dynamic = sort {
        let place = next_place(tree, parent);
        let value = format!(in alloc; "#{place}")?;
        return id_of(alloc, tree, parent, segment, value.as_str());
    }
    id_of(alloc, tree, parent, segment, name)
}

/// The next node below this one.
fn next_node(
    alloc: Global,
    tree: &Tree,
    marks: &Marks,
    parent: NodeId,
    sort: Sort,
    name: &str,
    body: Option<BodyId>,
) -> Result<Node, BuildCause>
    requires { parent < size tree.now }
    ensures ok { IfOk result (λ node. node ≡ marked marks.now sort (id_at tree.now parent
        ++ record { kind = type_of sort; value = value_below tree.now parent sort name.now } ∷ []) name.now body) }
    ensures accepted { IfOk result (λ _. ids.refusal (id_at tree.now parent) (type_of sort)
        (value_below tree.now parent sort name.now) ≡ None) }
    ensures refused { IfErr result (λ cause. cause ≢ BuildCause.NoMemory → (fault : UidFaultValue)
        × (cause ≡ BuildCause.Name fault) × (ids.refusal (id_at tree.now parent) (type_of sort)
        (value_below tree.now parent sort name.now) ≡ Some fault)) }
{
    let id = match next_id(alloc, tree, parent, sort, name) {
        Ok(id) => id,
        Err(UidFault::NoMemory) => return Err(BuildCause::NoMemory),
        Err(fault) => return Err(BuildCause::Name(fault)),
    };
    Ok(marks.node(alloc, sort, id, name, body)?)
}

/// Adds this node below this one, where there may be so many, and its job, for which there is room.
fn hang(
    alloc: Global,
    limit: NodeLimit,
    tree: &mut TreeBuilder,
    jobs: &mut Jobs<Body>,
    parent: NodeId,
    node: Node,
    body: &mut Option<Body>,
) -> Result<NodeId, BuildCause>
    requires taken { MayTake tree.old parent }
    requires room { vec_len jobs.old < vec_capacity jobs.old }
    ensures number { IfOk result (λ number. number ≡ size tree.old) }
    ensures accepted { OnOk result (trees.refusal limit tree.old parent node ≡ None) }
    ensures tree { OnOk result (tree.new ≡ appended tree.old parent node) }
    ensures jobs { OnOk result (jobs.new.items ≡ jobs.old.items ++ job_of (size tree.old) body.old) }
    ensures body { OnOk result (body.new ≡ None) }
    ensures refused { IfErr result (λ cause. cause ≢ BuildCause.NoMemory → (fault : TreeFaultValue)
        × (cause ≡ BuildCause.Node fault) × (trees.refusal limit tree.old parent node ≡ Some fault)) }
    ensures no_memory { IfErr result (λ cause. cause ≡ BuildCause.NoMemory → trees.refusal limit tree.old parent node ≡ None) }
    ensures tree_kept { OnErr result (tree.new ≡ tree.old) }
    ensures jobs_kept { OnErr result (jobs.new.items ≡ jobs.old.items) }
    ensures body_kept { OnErr result (body.new ≡ body.old) }
{
    let number = match tree.add(alloc, limit, parent, node) {
        Ok(number) => number,
        Err(TreeFault::NoMemory) => return Err(BuildCause::NoMemory),
        Err(fault) => return Err(BuildCause::Node(fault)),
    };
    if let Some(body) = body.take() {
        jobs.push_reserved((BodyId::new(number.number()), body));
    }
    Ok(number)
}

/// The number that the body of the next node has, if it has one.
fn next_body(tree: &Tree, body: &Option<Body>) -> Option<BodyId>
    ensures { result ≡ option_map (λ _. size tree.now) body.now }
{
    match body {
        Some(_) => Some(BodyId::new(tree.len() as u16)),
        None => None,
    }
}

/// Adds the next node below this one, where there may be so many, with its job.
pub(crate) fn grow(
    alloc: Global,
    limit: NodeLimit,
    tree: &mut TreeBuilder,
    jobs: &mut Jobs<Body>,
    marks: &mut Marks,
    body: &mut Option<Body>,
    parent: NodeId,
    sort: Sort,
    name: &str,
) -> Result<NodeId, BuildCause>
    ensures number { IfOk result (λ number. (number ≡ size tree.old) × (0 < number)) }
    ensures tree { OnOk result (IsTree tree.old) }
    ensures taken { OnOk result (IsNodeTaken (built limit tree.old jobs.old.items marks.old body.old) parent sort name.now) }
    ensures grown { OnOk result (built limit tree.new jobs.new.items marks.new body.new
        ≡ grown (built limit tree.old jobs.old.items marks.old body.old) parent sort name.now) }
    ensures refused { IfErr result (λ cause.
        IsNodeRefused (built limit tree.old jobs.old.items marks.old body.old) parent sort name.now cause) }
    ensures err { OnErr result (built limit tree.new jobs.new.items marks.new body.new
        ≡ built limit tree.old jobs.old.items marks.old body.old) }
{
    if !tree.may_take(parent) {
        return Err(BuildCause::Closed);
    }
    jobs.reserve(1)?;
    let number = next_body(tree.tree(), body);
    let node = next_node(alloc, tree.tree(), marks, parent, sort, name, number)?;
    let added = hang(alloc, limit, tree, jobs, parent, node, body)?;
    marks.clear(alloc);
    Ok(added)
}

/// Has this job register one dynamic test more, if it has this number.
fn count_in(job: &mut (BodyId, Body), number: BodyId)
    requires { is_spent job.old.1 ≡ false }
    ensures { job.new ≡ cond (job.old.0 == number) (job.old.0, with_test job.old.1) job.old }
{
    if job.0 == number {
        job.1.add_test();
    }
}

/// Has the job of this number register one dynamic test more.
pub(crate) fn count_test(jobs: &mut Jobs<Body>, number: BodyId)
    requires { are_fresh is_spent jobs.old.items ≡ true }
    ensures { jobs.new.items ≡ changed with_test number jobs.old.items }
{
    for place in 0..jobs.len() {
        count_in(&mut jobs[place], number);
    }
}
