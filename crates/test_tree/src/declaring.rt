//! The calls that declare something of the next node.

ghost use Rattle.std.specs.Prelude.{◌≡◌, ◌≢◌, ◌↔◌, ◌∷◌, ◌++◌, [], ◌==◌, length, true, false, Some, None, IfOk, IfErr, OnOk, OnErr, Result, option_map};
ghost use Rattle.std.specs.Option.{is_some};
ghost use Rattle.std.specs.Str.{trim};
ghost use Rattle.plan_events.specs.declared.outcome.Outcome.{Outcome};
ghost use Rattle.tag_expr.specs.Tags.{tag_refusal};
ghost use Rattle.test_bodies.specs.Bodies.{may_answer};
ghost use Rattle.test_tree.specs.Building.{held, memory_of, properties_of};
ghost use Rattle.test_tree.specs.Growing.{IsBodyGiven, with_marks};
ghost use Rattle.test_tree.specs.Marks.{is_limit, with_isolation, with_lock, with_mode, with_reason, with_slow, with_tag};

use crate::cause::BuildCause;
use crate::fault::BuildFault;
use crate::tests::Tests;
use descriptor::{Lock, LockMode, Mode};
use suite_words::LONGEST_LIMIT;
use tag_expr::{TagFault, tag_of};
use test_bodies::{Body, TestFn};
use unique_id::Text;

impl Tests {
    /// The next node has this tag.
    pub fn tag(&mut self, tag: &str) -> Result<(), BuildFault>
        ensures declared { OnOk result (held self.new ≡ with_marks (held self.old) (with_tag (held self.old).marks (trim
            tag.now))) }
        ensures accepted { OnOk result (tag_refusal tag.now ≡ None) }
        ensures refused { IfErr result (λ fault. fault.cause ≢ BuildCause.NoMemory →
            option_map BuildCause.Tag (tag_refusal tag.now) ≡ Some fault.cause) }
        ensures err { OnErr result (held self.new ≡ held self.old) }
        ensures properties { properties_of self.new ≡ properties_of self.old }
    {
        let word = match tag_of(self.alloc, tag) {
            Ok(word) => word,
            Err(TagFault::NoMemory) => return Err(BuildFault::at(BuildCause::NoMemory, tag)),
            Err(fault) => return Err(BuildFault::at(BuildCause::Tag(fault), tag)),
        };
        match self.marks.tags.add(word) {
            Ok(()) => Ok(()),
            Err(_) => Err(BuildFault::at(BuildCause::NoMemory, tag)),
        }
    }

    /// The next node wants this resource so.
    pub fn lock(&mut self, key: &str, mode: LockMode) -> Result<(), BuildFault>
        ensures declared { OnOk result (held self.new ≡ with_marks (held self.old)
            (with_lock (held self.old).marks key.now mode)) }
        ensures accepted { OnOk result ((length key.now == 0) ≡ false) }
        ensures refused { IfErr result (λ fault. fault.cause ≢ BuildCause.NoMemory →
            (fault.cause ≡ BuildCause.NoKey) × ((length key.now == 0) ≡ true)) }
        ensures err { OnErr result (held self.new ≡ held self.old) }
        ensures properties { properties_of self.new ≡ properties_of self.old }
    {
        if key.is_empty() {
            return Err(BuildFault::at(BuildCause::NoKey, key));
        }
        let Ok(lock) = Lock::new(self.alloc, key, mode) else {
            return Err(BuildFault::at(BuildCause::NoMemory, key));
        };
        match self.marks.locks.push(lock) {
            Ok(()) => Ok(()),
            Err(_) => Err(BuildFault::at(BuildCause::NoMemory, key)),
        }
    }

    /// The next node has this mode, whatever was said of its mode before.
    pub fn mode(&mut self, mode: Mode)
        ensures declared { held self.new ≡ with_marks (held self.old) (with_mode (held self.old).marks mode) }
        ensures properties { properties_of self.new ≡ properties_of self.old }
    {
        self.marks.mode = Some(mode);
    }

    /// While the next node runs nothing else does.
    pub fn isolated(&mut self)
        ensures declared { held self.new ≡ with_marks (held self.old) (with_isolation (held self.old).marks) }
        ensures properties { properties_of self.new ≡ properties_of self.old }
    {
        self.marks.isolated = true;
    }

    /// The next node is not run, for this reason, whatever was said before.
    pub fn disabled(&mut self, reason: &str) -> Result<(), BuildFault>
        ensures declared { OnOk result (held self.new ≡ with_marks (held self.old)
            (with_reason (held self.old).marks reason.now)) }
        ensures refused { IfErr result (λ fault. fault.cause ≡ BuildCause.NoMemory) }
        ensures err { OnErr result (held self.new ≡ held self.old) }
        ensures properties { properties_of self.new ≡ properties_of self.old }
    {
        let Ok(text) = Text::new(self.alloc, reason) else {
            return Err(BuildFault::at(BuildCause::NoMemory, reason));
        };
        self.marks.disabled = Some(text);
        Ok(())
    }

    /// The next node, if it is a test, is named while it runs once it has run for so many milliseconds, whatever was
    /// said before.
    pub fn slow(&mut self, milliseconds: u32) -> Result<(), BuildFault>
        ensures declared { OnOk result (held self.new ≡ with_marks (held self.old)
            (with_slow (held self.old).marks milliseconds)) }
        ensures accepted { OnOk result (is_limit milliseconds ≡ true) }
        ensures refused { IfErr result (λ fault. (fault.cause ≡ BuildCause.NoLimit) × (is_limit milliseconds ≡ false)) }
        ensures err { OnErr result (held self.new ≡ held self.old) }
        ensures properties { properties_of self.new ≡ properties_of self.old }
    {
        if milliseconds == 0 || milliseconds > LONGEST_LIMIT {
            return Err(BuildFault::at(BuildCause::NoLimit, ""));
        }
        self.marks.slow = Some(milliseconds);
        Ok(())
    }

    /// The next node, which has to be a class, has this body, which runs before what the class holds.
    pub fn before(&mut self, run: TestFn) -> Result<(), BuildFault>
        requires { TestFn.IsAlwaysCallable run }
        ensures declared { OnOk result (IsBodyGiven (λ body. (answer : Result (Unit {0}) Outcome) →
            may_answer body answer ↔ TestFn.post run (memory_of self.old) answer) (held self.old) (held self.new)) }
        ensures refused { IfErr result (λ fault. (fault.cause ≡ BuildCause.NoClass)
            × (is_some (held self.old).body ≡ true)) }
        ensures err { OnErr result (held self.new ≡ held self.old) }
        ensures properties { properties_of self.new ≡ properties_of self.old }
    {
        if self.body.is_some() {
            return Err(BuildFault::at(BuildCause::NoClass, ""));
        }
        self.body = Some(Body::of_function(self.alloc, run));
        Ok(())
    }
}
