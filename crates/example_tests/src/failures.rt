//! An observer of one's own: how many tests of each class failed, and of the dynamic tests of each factory.

use harness::{Event, NodeId, Observer, Plan, Status, Texts};
use std::alloc::{AllocError, Global};
use std::io::Write;

/// A class or a factory, by its name, and how many of its tests failed.
#[derive(Drop)]
struct ClassFailures {
    name: String,
    failed: usize,
}

/// The classes and factories of which a test failed, in the order in which the first of each did.
#[derive(Drop)]
pub struct FailuresByClass {
    alloc: Global,
    classes: Vec<ClassFailures>,
}

impl FailuresByClass {
    /// None has failed.
    pub fn new(alloc: Global) -> FailuresByClass {
        FailuresByClass {
            alloc,
            classes: Vec::new(alloc),
        }
    }

    /// Counts a test that failed below a class or a factory of this name. Without memory it is not counted.
    fn count(&mut self, class: &str) -> Result<(), AllocError> {
        for known in self.classes.iter_mut() {
            if known.name.as_str() == class {
                known.failed = known.failed.saturating_add(1);
                return Ok(());
            }
        }
        let name = String::from_str(self.alloc, class)?;
        self.classes.push(ClassFailures { name, failed: 1 })?;
        Ok(())
    }

    /// Prints a line for each class or factory of which a test failed.
    pub fn print<W: Write>(&self, writer: &mut W) {
        for ClassFailures { name, failed } in self.classes.iter() {
            let _ = writer.write_fmt(format_args!("{name}: {failed} failed\n"));
        }
    }
}

impl Observer for FailuresByClass {
    ghost saw = { λ _ _ _ _. Unit {0} };

    fn see(&mut self, plan: &Plan, _texts: &Texts, event: Event) {
        let event = &event;
        let tree = plan.tree();
        if event.status != Some(Status::Failed) || event.node.index() >= tree.len() {
            return;
        }
        if tree.kind(event.node).is_container() {
            return;
        }
        match tree.parent(event.node) {
            Some(class) if class != NodeId::ROOT => {
                let _ = self.count(tree.node(class).name.as_str());
            }
            _ => {}
        }
    }

    fn idle(&mut self) {}
}
