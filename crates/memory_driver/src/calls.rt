//! Calls that leave what they are given as it was: each is made, and its answer is told, in one way.

use crate::printer::Printer;
use crate::said::Said;
use std::alloc::Global;
use std::io::Write;

/// A call, with what is handed over to it.
pub(crate) trait Call {
    /// What it reads.
    type Input;

    /// What it answers.
    type Answer: Drop;

    /// Makes it.
    fn make(self, alloc: Global, input: &Self::Input) -> Self::Answer;

    /// Adds what is said of an answer.
    fn push(said: &mut Said, answer: &Self::Answer);
}

/// Makes a call, and tells its answer.
pub(crate) fn note<C: Call, W: Write>(
    alloc: Global,
    out: &mut Printer<W>,
    input: &C::Input,
    call: C,
) {
    out.given();
    out.call();
    let answer = call.make(alloc, input);
    out.answered();
    let mut said = Said::new(alloc);
    C::push(&mut said, &answer);
    out.tell(said);
}
