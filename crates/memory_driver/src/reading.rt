//! Calls that read texts, or find what is to run.

use crate::calls::{Call, note};
use crate::inputs::{SHOP, tree_of};
use crate::printer::Printer;
use crate::said::Said;
use crate::values::push_suite;
use descriptor::Tree;
use selectors::{Found, Request, SelectFault, Selector, SelectorKind, discover};
use std::alloc::{AllocError, Global};
use std::io::Write;
use suite_text::{Suite, SuiteFault};
use tag_expr::TagExpr;

/// `Suite::parse`.
#[derive(Drop)]
struct Parses;

impl Call for Parses {
    type Input = ();

    type Answer = Result<Suite, SuiteFault>;

    fn make(self, alloc: Global, _input: &()) -> Result<Suite, SuiteFault> {
        Suite::parse(alloc, None, SHOP)
    }

    fn push(said: &mut Said, suite: &Result<Suite, SuiteFault>) {
        match suite {
            Ok(suite) => push_suite(said, suite),
            Err(fault) => said.refuse(fault.number()),
        }
    }
}

/// `Suite::parse`.
pub(crate) fn parse<W: Write>(alloc: Global, out: &mut Printer<W>) {
    note(alloc, out, &(), Parses);
}

/// Adds the selector of a class.
fn push_class(alloc: Global, request: &mut Request, name: &str) -> Result<(), AllocError> {
    let class = Selector::parse(alloc, SelectorKind::Class, name).map_err(|_| AllocError)?;
    request.selectors.push(class)?;
    Ok(())
}

/// Adds what is to run, and an expression of tags that are left out.
fn push_asked(alloc: Global, request: &mut Request) -> Result<(), AllocError> {
    push_class(alloc, request, "shop.Reports")?;
    push_class(alloc, request, "shop.Mail$Inner")?;
    let expression = TagExpr::parse(alloc, "slow & !db").map_err(|_| AllocError)?;
    request.exclude.push(expression)?;
    Ok(())
}

/// `discover`, in a tree of its own.
struct Finds {
    tree: Tree,
}

impl Call for Finds {
    type Input = Request;

    type Answer = Result<Tree, SelectFault>;

    fn make(self, alloc: Global, request: &Request) -> Result<Tree, SelectFault> {
        let Finds { tree } = self;
        let Found {
            tree,
            is_nothing: _,
        } = discover(alloc, tree, request)?;
        Ok(tree)
    }

    fn push(said: &mut Said, tree: &Result<Tree, SelectFault>) {
        match tree {
            Ok(tree) => said.quote("", tree),
            Err(fault) => said.refuse(fault.number()),
        }
    }
}

/// `discover`.
pub(crate) fn find<W: Write>(alloc: Global, out: &mut Printer<W>) -> Result<(), AllocError> {
    let mut request = Request {
        selectors: Vec::new(alloc),
        names: Vec::new(alloc),
        rerun: Vec::new(alloc),
        exclusions: Vec::new(alloc),
        include: Vec::new(alloc),
        exclude: Vec::new(alloc),
        shard: None,
        seed: None,
    };
    push_asked(alloc, &mut request)?;
    let (tree, properties) = tree_of(alloc, SHOP)?;
    drop(properties);
    note(alloc, out, &request, Finds { tree });
    drop(request);
    Ok(())
}
