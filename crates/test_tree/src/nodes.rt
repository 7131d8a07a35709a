//! The calls that add nodes.

ghost use Rattle.std.specs.Prelude.{◌≡◌, ◌↔◌, None, IfOk, IfErr, OnOk, OnErr, Result};
ghost use Rattle.descriptor.specs.Nodes.{size};
ghost use Rattle.plan_events.specs.declared.outcome.Outcome.{Outcome};
ghost use Rattle.test_bodies.specs.Bodies.{may_answer, with_test};
ghost use Rattle.test_tree.specs.Building.{held, memory_of, properties_of};
ghost use Rattle.test_tree.specs.Growing.{IsAdded, IsAddedWith, IsDynamicAdded};
ghost use Rattle.test_tree.specs.Growing.{IsBodyRefused, IsDynamicRefused, IsNodeRefused, IsRefused};
ghost use Rattle.test_tree.specs.Handles.{class_node, engine_node, factory_node};

use crate::cause::BuildCause;
use crate::fault::BuildFault;
use crate::handles::{ClassId, EngineId, FactoryId};
use crate::sort::Sort;
use crate::tests::Tests;
use descriptor::NodeId;
use test_bodies::{Body, TestBox, TestFn};

impl Tests {
    /// Begins an engine. It may have tags and a reason why it is not run, and no mode, lock or isolation.
    pub fn engine(&mut self, name: &str) -> Result<EngineId, BuildFault>
        ensures added { OnOk result (IsAdded (held self.old) (held self.new) 0 Sort.Engine name.now) }
        ensures none { OnOk result ((held self.old).body ≡ None) }
        ensures number { IfOk result (λ engine. engine_node engine ≡ size (held self.old).tree) }
        ensures refused { IfErr result (λ fault. IsRefused (held self.old) 0 Sort.Engine name.now fault.cause) }
        ensures err { OnErr result (held self.new ≡ held self.old) }
        ensures properties { properties_of self.new ≡ properties_of self.old }
    {
        if self.body.is_some() {
            return Err(self.fault_below(BuildCause::NoClass, NodeId::ROOT, Sort::Engine, name));
        }
        match self.add(NodeId::ROOT, Sort::Engine, name) {
            Ok(node) => Ok(EngineId {
                number: node.number(),
            }),
            Err(cause) => Err(self.fault_below(cause, NodeId::ROOT, Sort::Engine, name)),
        }
    }

    /// Begins a class of an engine.
    pub fn class(&mut self, engine: EngineId, name: &str) -> Result<ClassId, BuildFault>
        ensures added { OnOk result (IsAdded (held self.old) (held self.new) (engine_node engine) Sort.Class name.now) }
        ensures number { IfOk result (λ class. class_node class ≡ size (held self.old).tree) }
        ensures refused { IfErr result (λ fault.
            IsNodeRefused (held self.old) (engine_node engine) Sort.Class name.now fault.cause) }
        ensures err { OnErr result (held self.new ≡ held self.old) }
        ensures properties { properties_of self.new ≡ properties_of self.old }
    {
        let parent = NodeId::new(engine.number);
        match self.add(parent, Sort::Class, name) {
            Ok(node) => Ok(ClassId {
                number: node.number(),
            }),
            Err(cause) => Err(self.fault_below(cause, parent, Sort::Class, name)),
        }
    }

    /// Begins a class within a class.
    pub fn nested(&mut self, class: ClassId, name: &str) -> Result<ClassId, BuildFault>
        ensures added { OnOk result (IsAdded (held self.old) (held self.new) (class_node class) Sort.Nested name.now) }
        ensures number { IfOk result (λ class. class_node class ≡ size (held self.old).tree) }
        ensures refused { IfErr result (λ fault.
            IsNodeRefused (held self.old) (class_node class) Sort.Nested name.now fault.cause) }
        ensures err { OnErr result (held self.new ≡ held self.old) }
        ensures properties { properties_of self.new ≡ properties_of self.old }
    {
        let parent = NodeId::new(class.number);
        match self.add(parent, Sort::Nested, name) {
            Ok(node) => Ok(ClassId {
                number: node.number(),
            }),
            Err(cause) => Err(self.fault_below(cause, parent, Sort::Nested, name)),
        }
    }

    /// Adds a test of a class.
    pub fn test(&mut self, class: ClassId, name: &str, run: TestFn) -> Result<(), BuildFault>
        requires { TestFn.IsAlwaysCallable run }
        ensures added { OnOk result (IsAddedWith (λ body. (answer : Result (Unit {0}) Outcome) →
            may_answer body answer ↔ TestFn.post run (memory_of self.old) answer)
            (held self.old) (held self.new) (class_node class) Sort.Test name.now) }
        ensures refused { IfErr result (λ fault.
            IsBodyRefused (held self.old) (class_node class) Sort.Test name.now fault.cause) }
        ensures err { OnErr result (held self.new ≡ held self.old) }
        ensures properties { properties_of self.new ≡ properties_of self.old }
        ensures memory { memory_of self.new ≡ memory_of self.old }
    {
        let parent = NodeId::new(class.number);
        let body = Body::of_function(self.alloc, run);
        match self.add_with(parent, Sort::Test, name, body) {
            Ok(_) => Ok(()),
            Err(cause) => Err(self.fault_below(cause, parent, Sort::Test, name)),
        }
    }

    /// Adds a test of a class that is a closure.
    pub fn closure(&mut self, class: ClassId, name: &str, run: TestBox) -> Result<(), BuildFault>
        requires { TestBox.IsAlwaysCallable run }
        ensures added { OnOk result (IsAddedWith (λ body. (answer : Result (Unit {0}) Outcome) →
            may_answer body answer ↔ TestBox.post run (memory_of self.old) answer)
            (held self.old) (held self.new) (class_node class) Sort.Test name.now) }
        ensures refused { IfErr result (λ fault.
            IsBodyRefused (held self.old) (class_node class) Sort.Test name.now fault.cause) }
        ensures err { OnErr result (held self.new ≡ held self.old) }
        ensures properties { properties_of self.new ≡ properties_of self.old }
    {
        let parent = NodeId::new(class.number);
        let body = Body::of_closure(self.alloc, run);
        match self.add_with(parent, Sort::Test, name, body) {
            Ok(_) => Ok(()),
            Err(cause) => Err(self.fault_below(cause, parent, Sort::Test, name)),
        }
    }

    /// Begins a factory of a class. Its body registers the dynamic tests that are added to it, and then ends as this
    /// function does.
    pub fn factory(
        &mut self,
        class: ClassId,
        name: &str,
        run: TestFn,
    ) -> Result<FactoryId, BuildFault>
        requires { TestFn.IsAlwaysCallable run }
        ensures added { OnOk result (IsAddedWith (λ body. (answer : Result (Unit {0}) Outcome) →
            may_answer body answer ↔ TestFn.post run (memory_of self.old) answer)
            (held self.old) (held self.new) (class_node class) Sort.Factory name.now) }
        ensures number { IfOk result (λ factory. factory_node factory ≡ size (held self.old).tree) }
        ensures refused { IfErr result (λ fault.
            IsBodyRefused (held self.old) (class_node class) Sort.Factory name.now fault.cause) }
        ensures err { OnErr result (held self.new ≡ held self.old) }
        ensures properties { properties_of self.new ≡ properties_of self.old }
    {
        let parent = NodeId::new(class.number);
        let body = Body::of_function(self.alloc, run);
        match self.add_with(parent, Sort::Factory, name, body) {
            Ok(node) => Ok(FactoryId {
                number: node.number(),
            }),
            Err(cause) => Err(self.fault_below(cause, parent, Sort::Factory, name)),
        }
    }

    /// Adds a dynamic test of a factory, of which nothing may be declared: one that wants a lock can get a run stuck.
    pub fn dynamic(
        &mut self,
        factory: FactoryId,
        name: &str,
        run: TestBox,
    ) -> Result<(), BuildFault>
        requires { TestBox.IsAlwaysCallable run }
        ensures added { OnOk result (IsDynamicAdded with_test (λ body. (answer : Result (Unit {0}) Outcome) →
            may_answer body answer ↔ TestBox.post run (memory_of self.old) answer)
            (held self.old) (held self.new) (factory_node factory) name.now) }
        ensures refused { IfErr result (λ fault.
            IsDynamicRefused (held self.old) (factory_node factory) name.now fault.cause) }
        ensures err { OnErr result (held self.new ≡ held self.old) }
        ensures properties { properties_of self.new ≡ properties_of self.old }
    {
        let parent = NodeId::new(factory.number);
        let body = Body::of_closure(self.alloc, run);
        match self.add_dynamic(parent, name, body) {
            Ok(()) => Ok(()),
            Err(cause) => Err(self.fault_below(cause, parent, Sort::Dynamic, name)),
        }
    }
}
