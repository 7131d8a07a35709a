//! A test's body.

ghost use Rattle.std.specs.Prelude.{◌≡◌, ◌+◌, ◌≤◌, ◌⊎◌, ◌↔◌, [], false, true, length, min, Result};
ghost use Rattle.std.specs.Str.{IsUtf8};
ghost use Rattle.plan_events.specs.Jobs.{IsPull, IsRun};
ghost use Rattle.plan_events.specs.declared.outcome.Outcome.{Outcome as Told};
ghost use Rattle.test_bodies.specs.Bodies.{HasKept, is_spent, may_answer, tests_left, with_test};
ghost use Rattle.test_bodies.specs.Replies.{IsSayable, replies_by};
ghost use Rattle.test_bodies.specs.Stops.{IsTold};

use crate::code::{Boxed, Code, Plain, TestBox, TestFn};
use crate::stop::Checked;
use plan_events::{Outcome, Pull, Status};
use std::alloc::Global;
use unique_id::Text;

/// A body, which runs its code once; that of a factory registers its dynamic tests before. How it ends nobody knows
/// beforehand, so it may give every reply that a body can give.
#[derive(Drop)]
pub struct Body {
    alloc: Global,
    code: Code,
    // how many dynamic tests are still to be registered
    tests: u16,
    // what its code answered, once it was run
    answered: Option<Outcome>,
}

/// A text of the same bytes. Where there is no memory for it, it is empty.
fn text_of(alloc: Global, said: &str) -> Text
    ensures { (result ≡ said.now) ⊎ (result ≡ []) }
{
    match Text::new(alloc, said) {
        Ok(text) => text,
        Err(_) => Text::empty(),
    }
}

/// What is told of a test that answered so.
fn told_of(alloc: Global, answer: &Checked) -> Outcome
    ensures told { IsTold answer.now result }
    ensures sayable { IsSayable result }
{
    match answer {
        Ok(()) => Outcome {
            status: Status::Successful,
            text: Text::empty(),
        },
        Err(stop) => Outcome {
            status: stop.status(),
            text: text_of(alloc, stop.text()),
        },
    }
}

impl Body {
    /// The body that this function is.
    pub fn of_function(alloc: Global, run: TestFn) -> Body
        requires { TestFn.IsAlwaysCallable run }
        ensures answers { (answer : Result (Unit {0}) Told) → may_answer result answer ↔ TestFn.post run alloc answer }
        ensures fresh { is_spent result ≡ false }
        ensures tests { tests_left result ≡ 0 }
    {
        Body {
            alloc,
            code: Code::Plain(Plain::new(run)),
            tests: 0,
            answered: None,
        }
    }

    /// The body that this closure is.
    pub fn of_closure(alloc: Global, run: TestBox) -> Body
        requires { TestBox.IsAlwaysCallable run }
        ensures answers { (answer : Result (Unit {0}) Told) → may_answer result answer ↔ TestBox.post run alloc answer }
        ensures fresh { is_spent result ≡ false }
        ensures tests { tests_left result ≡ 0 }
    {
        Body {
            alloc,
            code: Code::Boxed(Boxed::new(run)),
            tests: 0,
            answered: None,
        }
    }

    /// It registers one dynamic test more, or as many as before if these are 65,535.
    pub fn add_test(&mut self)
        requires { is_spent self.old ≡ false }
        ensures { self.new ≡ with_test self.old }
    {
        self.tests = self.tests.saturating_add(1);
    }

    /// Whether it registers one dynamic test more.
    pub fn next_test(&mut self) -> Pull
        ensures pull { IsPull (replies_by (is_spent self.old) (tests_left self.old)) result
            (replies_by (is_spent self.new) (tests_left self.new)) }
        // Its code is not touched.
        ensures same { (answer : Result (Unit {0}) Told) → may_answer self.new answer → may_answer self.old answer }
    {
        if self.tests == 0 {
            return Pull::End;
        }
        self.tests -= 1;
        Pull::More
    }

    /// Runs its code, unless it was run, and answers how it ended, which it keeps.
    #[tactic(auto, using(crate::proofs::Replying::runs))]
    pub fn finish(&mut self) -> Outcome
        ensures outcome { IsRun (replies_by (is_spent self.old) (tests_left self.old)) result }
        ensures over { replies_by (is_spent self.new) (tests_left self.new) ≡ [] }
        // What is told is what its code answered, which is gone from it.
        ensures said { (answer : Result (Unit {0}) Told) × may_answer self.old answer × IsTold answer result
            × HasKept self.new answer }
        ensures spent { is_spent self.new ≡ true }
    {
        let answer = match std::mem::replace(&mut self.code, Code::Spent) {
            Code::Spent => Ok(()),
            Code::Plain(plain) => plain.call(self.alloc),
            Code::Boxed(boxed) => boxed.call(self.alloc),
        };
        self.answered = Some(told_of(self.alloc, &answer));
        told_of(self.alloc, &answer)
    }
}
