//! What is handed in: suites, and what is made of them.

ghost use Rattle.std.specs.Prelude.{◌≡◌, IfOk, length};
ghost use Rattle.descriptor.specs.Nodes.{size};

use config_params::{Params, Settings, modes};
use descriptor::{BodyId, Mode, Tree};
use plan_events::Reply;
use resource_locks::Plan;
use sched_core::Answers;
use std::alloc::{AllocError, Global};
use suite_text::{Script, Suite};
use unique_id::both;

/// A suite with all that a line may declare.
pub(crate) const SHOP: &str = "# Two workers; the database is locked, and mail is sent alone.
property junit.jupiter.execution.parallel.enabled=true
property junit.jupiter.execution.parallel.mode.default=concurrent
property junit.jupiter.execution.parallel.config.strategy=fixed
property junit.jupiter.execution.parallel.config.fixed.parallelism=2
engine shop
  class shop.Orders lock=db:rw
    test places() spin=10 @slow=60000 pass
    test cancels() fail no such order
    after pass
  class shop.Reports lock=db:r lock=a/b:r
    test daily() #slow pass
    factory each() #slow #db @same_thread pulls=2 pass
      dyn north pass
      dyn south abort closed today
      dyn west pass
  class shop.Mail
    test sends() isolated pass
    test retries() disabled until the queue is up
    class Inner
      test t[1]() lock=net:rw pass
";

/// A suite of two tests that two workers may run side by side.
pub(crate) const PAIR: &str = "property junit.jupiter.execution.parallel.enabled=true
property junit.jupiter.execution.parallel.mode.default=concurrent
property junit.jupiter.execution.parallel.config.strategy=fixed
property junit.jupiter.execution.parallel.config.fixed.parallelism=2
engine e
  class a.B
    test t() pass
    test u() pass
";

/// Steps of its run, one of which is not possible.
pub(crate) const STEPS: &str =
    "w1:claim:0 w1:draw w1:show w1:admit w1:done w1:own:1 w1:draw w1:show w1:admit w1:done w1:claim:2 \
     w1:weigh w1:take w1:draw w1:show w1:admit w1:admit w1:done w1:claim:3 w1:draw w2:claim:4 w2:draw w2:show d:read d:read d:read d:read";

/// The suite of a text.
pub(crate) fn suite_of(alloc: Global, text: &str) -> Result<Suite, AllocError> {
    Suite::parse(alloc, None, text).map_err(|_| AllocError)
}

/// The tree of a suite, and what its property lines say.
pub(crate) fn tree_of(alloc: Global, text: &str) -> Result<(Tree, Params), AllocError> {
    let Suite {
        tree,
        scripts,
        properties,
    } = suite_of(alloc, text)?;
    drop(scripts);
    Ok((tree, properties))
}

/// The scripts of a suite.
pub(crate) fn scripts_of(alloc: Global, text: &str) -> Result<Vec<Script>, AllocError> {
    let Suite {
        tree,
        scripts,
        properties,
    } = suite_of(alloc, text)?;
    drop(tree);
    drop(properties);
    Ok(scripts)
}

/// The settings that property lines give.
pub(crate) fn settings_of(properties: &Params) -> Result<Settings, AllocError> {
    Settings::read(properties, 4).map_err(|_| AllocError)
}

/// The modes of a tree's nodes.
pub(crate) fn modes_of(
    alloc: Global,
    tree: &Tree,
    properties: &Params,
) -> Result<Vec<Mode>, AllocError>
    ensures { IfOk result (λ modes. length modes.items ≡ size tree.now) }
{
    let settings = settings_of(properties)?;
    modes(alloc, tree, &settings)
}

/// The plan of a tree.
fn planned(alloc: Global, tree: Tree, properties: Params) -> Result<Plan, AllocError> {
    let modes = modes_of(alloc, &tree, &properties);
    drop(properties);
    Plan::of(alloc, tree, modes?).map_err(|_| AllocError)
}

/// The plan of a suite.
pub(crate) fn plan_of(alloc: Global, text: &str) -> Result<Plan, AllocError> {
    let (tree, properties) = tree_of(alloc, text)?;
    planned(alloc, tree, properties)
}

/// What these bodies answer.
fn answers_by(alloc: Global, scripts: Vec<Script>) -> Result<Answers, AllocError> {
    let mut replies: Vec<(BodyId, Reply)> = Vec::new(alloc);
    for script in scripts {
        replies.push((script.body, script.reply))?;
    }
    Ok(Answers::of(replies))
}

/// A plan, and what its bodies answer.
#[derive(Drop)]
pub(crate) struct Run {
    pub(crate) plan: Plan,
    pub(crate) answers: Answers,
}

/// The run of a suite.
pub(crate) fn run_of(alloc: Global, text: &str) -> Result<Run, AllocError> {
    let Suite {
        tree,
        scripts,
        properties,
    } = suite_of(alloc, text)?;
    let answers = answers_by(alloc, scripts);
    let (plan, answers) = both(planned(alloc, tree, properties), answers)?;
    Ok(Run { plan, answers })
}
