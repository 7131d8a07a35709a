//! Adding a node, with what is declared of it.

ghost use Rattle.std.specs.Prelude.{◌≡◌, ◌<◌, [], true, false, Some, None, IfOk, IfErr, OnOk, OnErr};
ghost use Rattle.descriptor.specs.Nodes.{size};
ghost use Rattle.descriptor.specs.Roles.{is_factory, is_spare};
ghost use Rattle.test_bodies.specs.Bodies.{is_spent, with_test};
ghost use Rattle.test_tree.specs.Building.{held, memory_of, properties_of};
ghost use Rattle.test_tree.specs.Growing.{grown, with_body, with_changed, IsBodyRefused, IsDynamicRefused, IsNodeRefused, IsNodeTaken};
ghost use Rattle.test_tree.specs.Marks.{is_unmarked};
ghost use Rattle.test_tree.specs.Sorts.{role_of};

use crate::cause::BuildCause;
use crate::growing::{count_test, grow};
use crate::sort::Sort;
use crate::tests::Tests;
use descriptor::{BodyId, NodeId};
use test_bodies::Body;

impl Tests {
    /// Adds the next node below this one, with the body that waits for it.
    fn add_next(&mut self, parent: NodeId, sort: Sort, name: &str) -> Result<NodeId, BuildCause>
        requires spare { is_spare (role_of sort) ≡ true → (held self.old).marks.locks ≡ [] }
        requires factory { parent ≡ 0 → is_factory (role_of sort) ≡ false }
        ensures number { IfOk result (λ number. (number ≡ size (held self.old).tree) × (0 < number)) }
        ensures taken { OnOk result (IsNodeTaken (held self.old) parent sort name.now) }
        ensures grown { OnOk result (held self.new ≡ grown (held self.old) parent sort name.now) }
        ensures refused { IfErr result (λ cause. IsNodeRefused (held self.old) parent sort name.now cause) }
        ensures err { OnErr result (held self.new ≡ held self.old) }
        ensures properties { properties_of self.new ≡ properties_of self.old }
        ensures memory { memory_of self.new ≡ memory_of self.old }
    {
        grow(
            self.alloc,
            self.node_limit,
            &mut self.tree,
            &mut self.jobs,
            &mut self.marks,
            &mut self.body,
            parent,
            sort,
            name,
        )
    }

    /// From how many milliseconds on the body of the next node is slow, if it has one and that was said.
    fn next_limit(&self) -> Option<u32> {
        if self.body.is_some() {
            self.marks.slow
        } else {
            None
        }
    }

    /// Keeps from how many milliseconds on the body of this node is slow.
    fn keep_limit(&mut self, node: NodeId, limit: Option<u32>)
        ensures held { held self.new ≡ held self.old }
        ensures properties { properties_of self.new ≡ properties_of self.old }
        ensures memory { memory_of self.new ≡ memory_of self.old }
    {
        if let Some(limit) = limit {
            let _ = self.limits.push((BodyId::new(node.number()), limit));
        }
    }

    /// Adds the next node below this one, with the body that waits for it and with its limit.
    pub(crate) fn add(
        &mut self,
        parent: NodeId,
        sort: Sort,
        name: &str,
    ) -> Result<NodeId, BuildCause>
        requires spare { is_spare (role_of sort) ≡ true → (held self.old).marks.locks ≡ [] }
        requires factory { parent ≡ 0 → is_factory (role_of sort) ≡ false }
        ensures number { IfOk result (λ number. (number ≡ size (held self.old).tree) × (0 < number)) }
        ensures taken { OnOk result (IsNodeTaken (held self.old) parent sort name.now) }
        ensures grown { OnOk result (held self.new ≡ grown (held self.old) parent sort name.now) }
        ensures refused { IfErr result (λ cause. IsNodeRefused (held self.old) parent sort name.now cause) }
        ensures err { OnErr result (held self.new ≡ held self.old) }
        ensures properties { properties_of self.new ≡ properties_of self.old }
        ensures memory { memory_of self.new ≡ memory_of self.old }
    {
        let limit = self.next_limit();
        let node = self.add_next(parent, sort, name)?;
        self.keep_limit(node, limit);
        Ok(node)
    }

    /// Adds a node that has this body: none may wait.
    pub(crate) fn add_with(
        &mut self,
        parent: NodeId,
        sort: Sort,
        name: &str,
        body: Body,
    ) -> Result<NodeId, BuildCause>
        requires fresh { is_spent body ≡ false }
        requires spare { is_spare (role_of sort) ≡ true → (held self.old).marks.locks ≡ [] }
        requires factory { parent ≡ 0 → is_factory (role_of sort) ≡ false }
        ensures number { IfOk result (λ number. (number ≡ size (held self.old).tree) × (0 < number)) }
        ensures none { OnOk result ((held self.old).body ≡ None) }
        ensures taken { OnOk result (IsNodeTaken (with_body (held self.old) body) parent sort name.now) }
        ensures grown { OnOk result (held self.new ≡ grown (with_body (held self.old) body) parent sort name.now) }
        ensures refused { IfErr result (λ cause. IsBodyRefused (held self.old) parent sort name.now cause) }
        ensures err { OnErr result (held self.new ≡ held self.old) }
        ensures properties { properties_of self.new ≡ properties_of self.old }
        ensures memory { memory_of self.new ≡ memory_of self.old }
    {
        if self.body.is_some() {
            return Err(BuildCause::NoClass);
        }
        self.body = Some(body);
        match self.add(parent, sort, name) {
            Ok(node) => Ok(node),
            Err(cause) => {
                self.body = None;
                Err(cause)
            }
        }
    }

    /// Has the body of this factory register one dynamic test more.
    pub(crate) fn count(&mut self, factory: NodeId)
        ensures counted { held self.new ≡ with_changed with_test factory (held self.old) }
        ensures properties { properties_of self.new ≡ properties_of self.old }
    {
        count_test(&mut self.jobs, BodyId::new(factory.number()));
    }

    /// Adds a dynamic test of this factory, with this body, and has the body of the factory register one more.
    pub(crate) fn add_dynamic(
        &mut self,
        factory: NodeId,
        name: &str,
        body: Body,
    ) -> Result<(), BuildCause>
        requires { is_spent body ≡ false }
        ensures unmarked { OnOk result (is_unmarked (held self.old).marks ≡ true) }
        ensures none { OnOk result ((held self.old).body ≡ None) }
        ensures taken { OnOk result (IsNodeTaken (with_body (held self.old) body) factory Sort.Dynamic name.now) }
        ensures grown { OnOk result (held self.new ≡ with_changed with_test factory
            (grown (with_body (held self.old) body) factory Sort.Dynamic name.now)) }
        ensures refused { IfErr result (λ cause. IsDynamicRefused (held self.old) factory name.now cause) }
        ensures err { OnErr result (held self.new ≡ held self.old) }
        ensures properties { properties_of self.new ≡ properties_of self.old }
    {
        if !self.marks.is_none() {
            return Err(BuildCause::Marked);
        }
        self.add_with(factory, Sort::Dynamic, name, body)?;
        self.count(factory);
        Ok(())
    }
}
