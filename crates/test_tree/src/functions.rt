//! Adding test functions by a list of them, each with its name.

ghost use Rattle.std.specs.Prelude.{◌≡◌, ◌↔◌, true, IfErr, OnOk, OnErr, Result};
ghost use Rattle.plan_events.specs.declared.outcome.Outcome.{Outcome};
ghost use Rattle.test_bodies.specs.Bodies.{may_answer};
ghost use Rattle.test_tree.specs.Building.{held, memory_of, properties_of};
ghost use Rattle.test_tree.specs.Handles.{class_node};
ghost use Rattle.test_tree.specs.Growing.{IsBodyRefused};
ghost use Rattle.test_tree.specs.Lists.{AreTestsAdded, AreTestsRefused, IsTestAdded, IsTestRefused, function_of, name_of};
ghost use Rattle.test_tree.specs.Marks.{is_unmarked};
ghost use Rattle.test_tree.specs.declared.sort.Sort.TheVariants.{Test};

use crate::cause::BuildCause;
use crate::fault::BuildFault;
use crate::handles::ClassId;
use crate::named_test::NamedTest;
use crate::tests::Tests;
use descriptor::NodeId;
use test_bodies::TestFn;

/// The test of this name, which runs this function.
pub fn named(name: &str, run: TestFn) -> NamedTest<'_>
    requires { TestFn.IsAlwaysCallable run }
    ensures name { name_of result ≡ name.now }
    ensures run { function_of result ≡ run }
{
    NamedTest { name, run }
}

impl Tests {
    /// Adds a test of a list.
    fn function(&mut self, class: ClassId, test: &NamedTest<'_>) -> Result<(), BuildFault>
        ensures added { OnOk result (IsTestAdded (λ run body. (answer : Result (Unit {0}) Outcome) →
            may_answer body answer ↔ TestFn.post run (memory_of self.old) answer)
            (class_node class) (held self.old) test.now (held self.new)) }
        ensures refused { IfErr result (λ fault.
            IsBodyRefused (held self.old) (class_node class) Test (name_of test.now) fault.cause) }
        ensures err { OnErr result (held self.new ≡ held self.old) }
        ensures properties { properties_of self.new ≡ properties_of self.old }
        ensures memory { memory_of self.new ≡ memory_of self.old }
    {
        self.test(class, test.name, test.run)
    }

    /// Adds the tests of a list.
    fn add_functions(&mut self, class: ClassId, tests: &[NamedTest<'_>]) -> Result<(), BuildFault>
        ensures added { OnOk result (AreTestsAdded (λ run body. (answer : Result (Unit {0}) Outcome) →
            may_answer body answer ↔ TestFn.post run (memory_of self.old) answer)
            (class_node class) (held self.old) tests.now (held self.new)) }
        ensures refused { IfErr result (λ fault. IsTestRefused (λ run body. (answer : Result (Unit {0}) Outcome) →
            may_answer body answer ↔ TestFn.post run (memory_of self.old) answer)
            (class_node class) fault.cause (held self.old) tests.now (held self.new)) }
        ensures properties { properties_of self.new ≡ properties_of self.old }
        ensures memory { memory_of self.new ≡ memory_of self.old }
    {
        for index in 0..tests.len() {
            if let Err(fault) = self.function(class, &tests[index]) {
                return Err(fault);
            }
        }
        Ok(())
    }

    /// Adds these functions as tests of a class, in order, each by its name. Nothing may be declared before: it would
    /// be of the first alone. Where one is refused, those before it were added.
    pub fn functions(&mut self, class: ClassId, tests: &[NamedTest<'_>]) -> Result<(), BuildFault>
        ensures unmarked { OnOk result (is_unmarked (held self.old).marks ≡ true) }
        ensures added { OnOk result (AreTestsAdded (λ run body. (answer : Result (Unit {0}) Outcome) →
            may_answer body answer ↔ TestFn.post run (memory_of self.old) answer)
            (class_node class) (held self.old) tests.now (held self.new)) }
        ensures refused { IfErr result (λ fault. AreTestsRefused (λ run body. (answer : Result (Unit {0}) Outcome) →
            may_answer body answer ↔ TestFn.post run (memory_of self.old) answer)
            (class_node class) fault.cause (held self.old) tests.now (held self.new)) }
        ensures properties { properties_of self.new ≡ properties_of self.old }
        ensures memory { memory_of self.new ≡ memory_of self.old }
    {
        if !self.marks.is_none() {
            return Err(self.fault_at(BuildCause::Marked, NodeId::new(class.number)));
        }
        self.add_functions(class, tests)
    }
}
