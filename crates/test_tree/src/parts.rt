//! Tests at their beginning and at their end, after-bodies, and the configuration.

ghost use Rattle.std.specs.Prelude.{◌≡◌, ◌≤◌, ◌<◌, ◌↔◌, ◌∷◌, ◌++◌, [], ℕ, true, false, Some, None, IfOk, IfErr, OnOk, OnErr, Result};
ghost use Rattle.config_params.specs.Parameters.{nothing_said, with_value};
ghost use Rattle.config_params.specs.declared.source.Source.TheVariants.{File};
ghost use Rattle.descriptor.specs.Bodies.{with_after};
ghost use Rattle.descriptor.specs.Nodes.{plan_alone, size};
ghost use Rattle.descriptor.specs.Refusals.{after_refusal};
ghost use Rattle.plan_events.specs.declared.outcome.Outcome.{Outcome};
ghost use Rattle.resource_locks.specs.Plans.{PlanParts};
ghost use Rattle.resource_locks.specs.Spares.{HasBareSpares};
ghost use Rattle.suite_words.specs.Reading.After.{after_body};
ghost use Rattle.test_bodies.specs.Bodies.{is_spent, may_answer, tests_left};
ghost use Rattle.test_bodies.specs.Replies.{replies_by};
ghost use Rattle.worker_pool.specs.Premises.{JobsMayAnswer};
ghost use Rattle.worker_pool.specs.Reports.{run_of};
ghost use Rattle.test_tree.specs.Building.{held, memory_of, properties_of};
ghost use Rattle.test_tree.specs.Growing.{built, with_after_body, IsAfterAdded, IsAfterRefused, IsPending, IsPendingOf};
ghost use Rattle.test_tree.specs.Handles.{class_node};
ghost use Rattle.test_tree.specs.Jobs.{HasJobs};
ghost use Rattle.test_tree.specs.Marks.{is_unmarked, no_marks};

use crate::cause::BuildCause;
use crate::fault::BuildFault;
use crate::handles::ClassId;
use crate::marks::Marks;
use crate::tests::Tests;
use config_params::{Params, Source};
use descriptor::{BodyId, NodeId, NodeLimit, Tree, TreeBuilder};
use run_table::Jobs;
use std::alloc::{AllocError, Global};
use test_bodies::{Body, TestFn};

/// Gives a class this after-body, and adds its job.
fn put_after(
    tree: &mut TreeBuilder,
    jobs: &mut Jobs<Body>,
    class: NodeId,
    body: Body,
) -> Result<(), BuildCause>
    ensures accepted { OnOk result (after_refusal tree.old class (after_body class) ≡ None) }
    ensures tree { OnOk result (tree.new ≡ with_after tree.old class (after_body class)) }
    ensures jobs { OnOk result (jobs.new.items ≡ jobs.old.items ++ (after_body class, body) ∷ []) }
    ensures refused { IfErr result (λ cause. IsAfterRefused tree.old class cause) }
    ensures tree_kept { OnErr result (tree.new ≡ tree.old) }
    ensures jobs_kept { OnErr result (jobs.new.items ≡ jobs.old.items) }
{
    if class.index() >= tree.tree().len() {
        return Err(BuildCause::Closed);
    }
    jobs.reserve(1)?;
    let number = BodyId::after(class);
    match tree.set_after(class, number) {
        Ok(()) => {
            jobs.push_reserved((number, body));
            Ok(())
        }
        Err(fault) => Err(BuildCause::Node(fault)),
    }
}

/// What is declared of a node that does not come, if anything.
fn pending(marks: &Marks, body: &Option<Body>) -> Option<BuildCause>
    ensures some { (cause : _) → result ≡ Some cause → IsPendingOf marks.now body.now cause }
    ensures unmarked { result ≡ None → is_unmarked marks.now ≡ true }
    ensures none { result ≡ None → body.now ≡ None }
{
    if !marks.is_none() {
        return Some(BuildCause::Marked);
    }
    if body.is_some() {
        return Some(BuildCause::NoClass);
    }
    None
}

impl Tests {
    /// No tests yet, of which there may be 4,095 nodes.
    pub fn new(alloc: Global) -> Result<Box<Tests>, AllocError>
        ensures empty { IfOk result (λ tests. held tests.value ≡ built 4095 plan_alone [] no_marks None) }
        ensures properties { IfOk result (λ tests. properties_of tests.value ≡ nothing_said) }
        ensures memory { IfOk result (λ tests. memory_of tests.value ≡ alloc) }
    {
        Tests::with_limit(alloc, NodeLimit::usual())
    }

    /// No tests yet, of which there may be so many nodes. They stand in a box: where a call is refused it falls by one
    /// call, and not by one for each part.
    pub fn with_limit(alloc: Global, limit: NodeLimit) -> Result<Box<Tests>, AllocError>
        ensures empty { IfOk result (λ tests. held tests.value ≡ built limit plan_alone [] no_marks None) }
        ensures properties { IfOk result (λ tests. properties_of tests.value ≡ nothing_said) }
        ensures memory { IfOk result (λ tests. memory_of tests.value ≡ alloc) }
    {
        let tests = Tests {
            alloc,
            node_limit: limit,
            tree: TreeBuilder::new(alloc)?,
            jobs: Vec::new(alloc),
            properties: Params::new(alloc),
            marks: Marks::none(alloc),
            limits: Vec::new(alloc),
            body: None,
        };
        Ok(Box::new(alloc, tests)?)
    }

    /// Says what a key of the configuration is, unless the command line says so.
    pub fn property(&mut self, key: &str, value: &str) -> Result<(), BuildFault>
        ensures said { OnOk result (properties_of self.new
            ≡ with_value (properties_of self.old) File (key.now, value.now)) }
        ensures refused { IfErr result (λ fault. fault.cause ≡ BuildCause.NoMemory) }
        ensures err { OnErr result (properties_of self.new ≡ properties_of self.old) }
        ensures held { held self.new ≡ held self.old }
    {
        match self.properties.add(self.alloc, Source::File, key, value) {
            Ok(()) => Ok(()),
            Err(_) => Err(BuildFault::at(BuildCause::NoMemory, key)),
        }
    }

    fn add_after(&mut self, class: NodeId, body: Body) -> Result<(), BuildCause>
        requires { is_spent body ≡ false }
        ensures accepted { OnOk result (after_refusal (held self.old).tree class (after_body class) ≡ None) }
        ensures given { OnOk result (held self.new ≡ with_after_body (held self.old) class body) }
        ensures refused { IfErr result (λ cause. IsAfterRefused (held self.old).tree class cause) }
        ensures err { OnErr result (held self.new ≡ held self.old) }
        ensures properties { properties_of self.new ≡ properties_of self.old }
    {
        put_after(&mut self.tree, &mut self.jobs, class, body)
    }

    /// The class has this after-body, which runs after what it holds.
    pub fn after(&mut self, class: ClassId, run: TestFn) -> Result<(), BuildFault>
        requires { TestFn.IsAlwaysCallable run }
        ensures added { OnOk result (IsAfterAdded (λ body. (answer : Result (Unit {0}) Outcome) →
            may_answer body answer ↔ TestFn.post run (memory_of self.old) answer)
            (held self.old) (held self.new) (class_node class)) }
        ensures refused { IfErr result (λ fault. IsAfterRefused (held self.old).tree (class_node class) fault.cause) }
        ensures err { OnErr result (held self.new ≡ held self.old) }
        ensures properties { properties_of self.new ≡ properties_of self.old }
    {
        let node = NodeId::new(class.number);
        let body = Body::of_function(self.alloc, run);
        match self.add_after(node, body) {
            Ok(()) => Ok(()),
            Err(cause) => Err(self.fault_at(cause, node)),
        }
    }

    /// The tree, what is said of the configuration, the jobs with their numbers, and from how many milliseconds on
    /// which of them are slow: each body of the tree has a job, and whatever plan is made of the tree, they may be run.
    /// What is declared of a node that does not come is refused. No clause says what is slow.
    pub fn into_parts(self) -> Result<(Tree, Params, Jobs<Body>, Vec<(BodyId, u32)>), BuildFault>
        ensures tree { IfOk result (λ parts. parts.0 ≡ (held self).tree) }
        ensures properties { IfOk result (λ parts. parts.1 ≡ properties_of self) }
        ensures jobs { IfOk result (λ parts. parts.2.items ≡ (held self).jobs) }
        ensures has { IfOk result (λ parts. HasJobs parts.0 parts.2.items) }
        ensures may_answer { IfOk result (λ parts. (plan : PlanParts) (workers ring : ℕ) →
            JobsMayAnswer (λ b. replies_by (is_spent b) (tests_left b)) (run_of plan workers ring parts.2.items)) }
        ensures bare { IfOk result (λ parts. HasBareSpares parts.0) }
        ensures unmarked { OnOk result (is_unmarked (held self).marks ≡ true) }
        ensures none { OnOk result ((held self).body ≡ None) }
        ensures refused { IfErr result (λ fault. IsPending (held self) fault.cause) }
    {
        let Tests {
            alloc: _,
            node_limit: _,
            tree,
            jobs,
            properties,
            marks,
            limits,
            body,
        } = self;
        let pending = pending(&marks, &body);
        drop((marks, body));
        let parts = (tree.finish(), properties, jobs, limits);
        match pending {
            None => Ok(parts),
            Some(cause) => {
                drop(parts);
                Err(BuildFault::at(cause, ""))
            }
        }
    }
}
