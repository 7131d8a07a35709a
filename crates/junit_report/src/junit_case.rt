//! The element of a case in JUnit's XML.

ghost use Rattle.std.specs.Prelude.{◌≡◌, ◌<◌, ◌++◌, cond, None, Some, IfSome, OnOk, codes, string_bytes};
ghost use Rattle.descriptor.specs.Nodes.{is_spare_at, parent_of};
ghost use Rattle.junit_report.specs.ClassNames.{reported_name};
ghost use Rattle.junit_report.specs.Junit.{case_attributes, case_content, case_line, end_elements, failure_name};
ghost use Rattle.junit_report.specs.Junit.{output_element, reason_element, words_above};
ghost use Rattle.junit_report.specs.CaseTimes.{time_text};
ghost use Rattle.junit_report.specs.XmlStrings.{attribute_of, escaped};

use crate::cases::{Case, Cause};
use crate::told::NodeEnd;
use crate::xml_strings::{push_attribute, push_escaped, push_number};
use descriptor::{NodeId, Tree};
use job_times::Timings;
use plan_events::Texts;
use reports::{id_of, name_of, push_seconds, text_of, time_or_none};
use resource_locks::Plan;
use std::alloc::AllocError;

/// Appends the attribute that says why.
fn push_message(xml: &mut String, words: &str, text: &str) -> Result<(), AllocError>
    ensures { OnOk result (string_bytes xml.new ≡ string_bytes xml.old
        ++ attribute_of (codes "message") (words.now ++ escaped text.now)) }
{
    write!(xml, " message=\"{words}")?;
    push_escaped(xml, text)?;
    xml.push_str("\"")
}

/// Appends an element that says why, with these words before the text, and of which type that is.
fn push_reason(
    xml: &mut String,
    name: &str,
    words: &str,
    text: &str,
    kind: &str,
) -> Result<(), AllocError>
    ensures { OnOk result (string_bytes xml.new ≡ string_bytes xml.old
        ++ reason_element name.now words.now text.now kind.now) }
{
    write!(xml, "<{name}")?;
    push_message(xml, words, text)?;
    write!(xml, " type=\"{kind}\"/>")
}

/// A case that failed itself is a failure, one below a node that failed an error.
fn failure_name(own: bool) -> &'static str
    ensures { result.now ≡ failure_name own }
{
    if own { "failure" } else { "error" }
}

/// What stands before the text of a node that a case is below.
fn words_above(own: bool, words: &str) -> &str
    ensures { result.now ≡ words_above own words.now }
{
    if own { "" } else { words }
}

/// Appends what is told of a case, of its own node or of one that it is below.
fn push_end(xml: &mut String, own: bool, end: NodeEnd, text: &str) -> Result<(), AllocError>
    ensures { OnOk result (string_bytes xml.new ≡ string_bytes xml.old ++ end_elements own end text.now) }
{
    match end {
        NodeEnd::Passed => Ok(()),
        NodeEnd::Failed => push_reason(xml, failure_name(own), "", text, "FAILED"),
        NodeEnd::Aborted => {
            let words = words_above(own, "parent was aborted: ");
            push_reason(xml, "skipped", words, text, "ABORTED")
        }
        NodeEnd::Skipped => {
            let words = words_above(own, "parent was skipped: ");
            push_reason(xml, "skipped", words, text, "SKIPPED")
        }
        NodeEnd::NotRun => push_reason(xml, "skipped", "not run", "", "NOT_RUN"),
    }
}

/// Appends what a case says of its node besides: its unique id and its name.
fn push_output(xml: &mut String, plan: &Plan, node: NodeId) -> Result<(), AllocError>
    ensures { OnOk result (string_bytes xml.new ≡ string_bytes xml.old ++ output_element plan.now node) }
{
    xml.push_str("<system-out>unique-id: ")?;
    push_escaped(xml, id_of(plan, node))?;
    xml.push_str("&#10;display-name: ")?;
    push_escaped(xml, name_of(plan.tree(), node))?;
    xml.push_str("</system-out>")
}

/// Appends what stands in a case.
fn push_content(xml: &mut String, plan: &Plan, texts: &Texts, case: Case) -> Result<(), AllocError>
    ensures { OnOk result (string_bytes xml.new ≡ string_bytes xml.old ++ case_content plan.now texts.now case) }
{
    let Case { node, cause } = case;
    let Cause { node: told, end } = cause;
    push_end(xml, told == node, end, text_of(texts, told))?;
    push_output(xml, plan, node)
}

/// The factory of a dynamic test; no other node has one.
fn factory_of(tree: &Tree, node: NodeId) -> Option<NodeId>
    ensures value { result ≡ cond (is_spare_at tree.now node) (Some (parent_of tree.now node)) None }
    ensures smaller { IfSome result (λ factory. factory < node) }
{
    if node.index() >= tree.len() || !tree.role(node).is_spare() {
        return None;
    }
    tree.parent(node)
}

/// Appends how a report names a node, as it stands in a value.
fn push_reported(xml: &mut String, tree: &Tree, node: NodeId) -> Result<(), AllocError>
    ensures { OnOk result (string_bytes xml.new ≡ string_bytes xml.old ++ reported_name tree.now node) }
{
    match factory_of(tree, node) {
        None => push_escaped(xml, name_of(tree, node)),
        Some(factory) => {
            push_escaped(xml, name_of(tree, factory))?;
            let number = node.index() - factory.index();
            write!(xml, "[{number}]")
        }
    }
}

/// Appends the attribute that says how many seconds something took.
pub(crate) fn push_time(xml: &mut String, micros: u128) -> Result<(), AllocError>
    ensures { OnOk result (string_bytes xml.new ≡ string_bytes xml.old
        ++ attribute_of (codes "time") (time_text micros)) }
{
    if micros == 0 {
        return push_number(xml, "time", 0);
    }
    xml.push_str(" time=\"")?;
    push_seconds(xml, micros)?;
    xml.push_str("\"")
}

/// Appends the name of a case and that of its class, and how long its node took.
fn push_attributes(
    xml: &mut String,
    plan: &Plan,
    timings: &Timings,
    class: &str,
    node: NodeId,
) -> Result<(), AllocError>
    ensures { OnOk result (string_bytes xml.new ≡ string_bytes xml.old
        ++ case_attributes plan.now timings.now.took.items class.now node) }
{
    xml.push_str(" name=\"")?;
    push_reported(xml, plan.tree(), node)?;
    xml.push_str("\"")?;
    push_attribute(xml, "classname", class)?;
    push_time(xml, u128::from(time_or_none(timings, node)))
}

/// Appends the line of a case in a class.
pub(crate) fn push_case(
    xml: &mut String,
    plan: &Plan,
    texts: &Texts,
    timings: &Timings,
    class: &str,
    case: Case,
) -> Result<(), AllocError>
    ensures { OnOk result (string_bytes xml.new ≡ string_bytes xml.old
        ++ case_line plan.now texts.now timings.now.took.items class.now case) }
{
    xml.push_str("    <testcase")?;
    push_attributes(xml, plan, timings, class, case.node)?;
    xml.push_str(">")?;
    push_content(xml, plan, texts, case)?;
    xml.push_str("</testcase>\n")
}
