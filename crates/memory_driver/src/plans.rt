//! Calls that make a plan, or a run of it by steps.

ghost use Rattle.std.specs.Prelude.{◌≡◌, IfOk, length};
ghost use Rattle.descriptor.specs.Nodes.{size};

use crate::calls::{Call, note};
use crate::inputs::{PAIR, Run, SHOP, STEPS, modes_of, plan_of, run_of, settings_of, tree_of};
use crate::printer::Printer;
use crate::said::Said;
use crate::values::{push_plan, push_trace};
use config_params::{Settings, modes};
use descriptor::{Mode, Tree};
use resource_locks::{Plan, PlanFault, hoist};
use sched_core::{CoreFault, Trace, drive, run_steps};
use scheduling::Step;
use std::alloc::{AllocError, Global};
use std::io::Write;
use step_text::parse_steps;
use unique_id::both;

/// `modes`, by these settings.
struct Gives {
    settings: Settings,
}

impl Call for Gives {
    type Input = Tree;

    type Answer = Result<Vec<Mode>, AllocError>;

    fn make(self, alloc: Global, tree: &Tree) -> Result<Vec<Mode>, AllocError> {
        let Gives { settings } = self;
        modes(alloc, tree, &settings)
    }

    fn push(said: &mut Said, modes: &Result<Vec<Mode>, AllocError>) {
        match modes {
            Ok(modes) => said.quote("", modes),
            Err(_) => said.refuse(0),
        }
    }
}

/// `modes`.
pub(crate) fn mode<W: Write>(alloc: Global, out: &mut Printer<W>) -> Result<(), AllocError> {
    let (tree, properties) = tree_of(alloc, SHOP)?;
    let settings = settings_of(&properties);
    drop(properties);
    let Ok(settings) = settings else {
        drop(tree);
        return Err(AllocError);
    };
    note(alloc, out, &tree, Gives { settings });
    drop(tree);
    Ok(())
}

/// Tells of a plan that was hoisted.
fn tell_hoisted<W: Write>(alloc: Global, out: &mut Printer<W>, plan: Result<Plan, PlanFault>) {
    let mut said = Said::new(alloc);
    match plan {
        Ok(plan) => {
            push_plan(&mut said, &plan);
            drop(plan)
        }
        Err(fault) => said.refuse(fault.number()),
    }
    out.tell(said);
}

/// `hoist`, of this tree and these modes.
fn hoisted<W: Write>(
    alloc: Global,
    out: &mut Printer<W>,
    tree: &Tree,
    modes: Result<Vec<Mode>, AllocError>,
) -> Result<(), AllocError>
    requires { IfOk modes (λ modes. length modes.items ≡ size tree.now) }
{
    let modes = modes?;
    out.given();
    out.call();
    let plan = hoist(alloc, tree, modes);
    out.answered();
    tell_hoisted(alloc, out, plan);
    Ok(())
}

/// `hoist`.
pub(crate) fn hoists<W: Write>(alloc: Global, out: &mut Printer<W>) -> Result<(), AllocError> {
    let (tree, properties) = tree_of(alloc, SHOP)?;
    let modes = modes_of(alloc, &tree, &properties);
    drop(properties);
    let answer = hoisted(alloc, out, &tree, modes);
    drop(tree);
    answer
}

/// `Plan::copy`.
#[derive(Drop)]
struct Copies;

impl Call for Copies {
    type Input = Plan;

    type Answer = Result<Plan, AllocError>;

    fn make(self, alloc: Global, plan: &Plan) -> Result<Plan, AllocError> {
        plan.copy(alloc)
    }

    fn push(said: &mut Said, plan: &Result<Plan, AllocError>) {
        match plan {
            Ok(plan) => push_plan(said, plan),
            Err(_) => said.refuse(0),
        }
    }
}

/// `Plan::copy`.
pub(crate) fn copy<W: Write>(alloc: Global, out: &mut Printer<W>) -> Result<(), AllocError> {
    let plan = plan_of(alloc, SHOP)?;
    note(alloc, out, &plan, Copies);
    drop(plan);
    Ok(())
}

/// `drive`.
#[derive(Drop)]
struct FixedRun;

impl Call for FixedRun {
    type Input = Run;

    type Answer = Result<Trace, AllocError>;

    fn make(self, alloc: Global, run: &Run) -> Result<Trace, AllocError> {
        drive(alloc, &run.plan, &run.answers)
    }

    fn push(said: &mut Said, trace: &Result<Trace, AllocError>) {
        match trace {
            Ok(trace) => push_trace(said, trace),
            Err(_) => said.refuse(0),
        }
    }
}

/// `drive`.
pub(crate) fn drives<W: Write>(alloc: Global, out: &mut Printer<W>) -> Result<(), AllocError> {
    let run = run_of(alloc, SHOP)?;
    note(alloc, out, &run, FixedRun);
    drop(run);
    Ok(())
}

/// The number of a refusal, 0 for want of memory.
fn number_of(fault: &CoreFault) -> u8 {
    match fault {
        CoreFault::NoMemory => 0,
        CoreFault::NoWorkers => 60,
        CoreFault::TooManyWorkers => 61,
    }
}

/// `run_steps`, of these steps.
struct Takes {
    steps: Vec<Step>,
}

impl Call for Takes {
    type Input = Run;

    type Answer = Result<Trace, CoreFault>;

    fn make(self, alloc: Global, run: &Run) -> Result<Trace, CoreFault> {
        let Takes { steps } = self;
        run_steps(alloc, &run.plan, &run.answers, 2, steps.as_slice())
    }

    fn push(said: &mut Said, trace: &Result<Trace, CoreFault>) {
        match trace {
            Ok(trace) => push_trace(said, trace),
            Err(fault) => said.refuse(number_of(fault)),
        }
    }
}

/// `run_steps`.
pub(crate) fn takes_steps<W: Write>(alloc: Global, out: &mut Printer<W>) -> Result<(), AllocError> {
    let steps = parse_steps(alloc, STEPS).map_err(|_| AllocError);
    let (steps, run) = both(steps, run_of(alloc, PAIR))?;
    note(alloc, out, &run, Takes { steps });
    drop(run);
    Ok(())
}
