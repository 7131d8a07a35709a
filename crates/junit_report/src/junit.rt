//! The report that build servers read: JUnit's XML.

ghost use Rattle.std.specs.Prelude.{◌≡◌, ◌<◌, ◌++◌, OnOk, IfOk, codes, length, option_map, string_bytes};
ghost use Rattle.std.specs.List.{count_by, flat_map, range_with_len};
ghost use Rattle.descriptor.specs.Nodes.{size};
ghost use Rattle.job_times.specs.Timings.{times_of};
ghost use Rattle.junit_report.specs.Cases.{has_error, has_failed, is_left_out};
ghost use Rattle.junit_report.specs.Junit.{case_line, count_attributes, known_attribute, stamp_attributes, suite_element};
ghost use Rattle.junit_report.specs.Junit.{suite_of, timed_junit_of, junit_of};

use crate::case_times::time_of_cases;
use crate::cases::{Case, cases_of};
use crate::class_names::class_name;
use crate::junit_case::{push_case, push_time};
use crate::xml_strings::{push_attribute, push_number};
use descriptor::NodeId;
use job_times::Timings;
use plan_events::{Event, Texts};
use resource_locks::Plan;
use run_results::{NodeEvents, node_events};
use std::alloc::{AllocError, Global};

/// Appends the lines of the cases in a class.
fn push_lines(
    xml: &mut String,
    plan: &Plan,
    texts: &Texts,
    timings: &Timings,
    class: &str,
    cases: &[Case],
) -> Result<(), AllocError>
    ensures { OnOk result (string_bytes xml.new ≡ string_bytes xml.old
        ++ flat_map (case_line plan.now texts.now timings.now.took.items class.now) cases.now) }
{
    for case in cases {
        push_case(xml, plan, texts, timings, class, *case)?;
    }
    Ok(())
}

/// How many of the cases failed themselves.
fn failures(cases: &[Case]) -> usize
    ensures { result ≡ count_by has_failed cases.now }
{
    cases.iter().filter(|case| case.has_failed()).count()
}

/// How many of the cases are below a node that failed.
fn errors(cases: &[Case]) -> usize
    ensures { result ≡ count_by has_error cases.now }
{
    cases.iter().filter(|case| case.has_error()).count()
}

/// How many of the cases neither passed nor failed.
fn skips(cases: &[Case]) -> usize
    ensures { result ≡ count_by is_left_out cases.now }
{
    cases.iter().filter(|case| case.is_left_out()).count()
}

/// Appends the name of a suite, its counts, and how long the nodes of its cases took.
fn push_counts(
    xml: &mut String,
    timings: &Timings,
    class: &str,
    cases: &[Case],
) -> Result<(), AllocError>
    ensures { OnOk result (string_bytes xml.new ≡ string_bytes xml.old
        ++ count_attributes timings.now.took.items class.now cases.now) }
{
    push_attribute(xml, "name", class)?;
    push_number(xml, "tests", cases.len())?;
    push_number(xml, "failures", failures(cases))?;
    push_number(xml, "errors", errors(cases))?;
    push_number(xml, "skipped", skips(cases))?;
    push_time(xml, time_of_cases(timings, cases))
}

/// Appends an attribute whose value is a text; nothing where that is not known.
fn push_known(xml: &mut String, name: &str, value: &Option<String>) -> Result<(), AllocError>
    ensures { OnOk result (string_bytes xml.new ≡ string_bytes xml.old
        ++ known_attribute name.now (option_map string_bytes value.now)) }
{
    match value {
        None => Ok(()),
        Some(text) => push_attribute(xml, name, text.as_str()),
    }
}

/// Appends the name of the machine, and when the run began.
fn push_stamp(xml: &mut String, timings: &Timings) -> Result<(), AllocError>
    ensures { OnOk result (string_bytes xml.new ≡ string_bytes xml.old
        ++ stamp_attributes (times_of timings.now)) }
{
    push_known(xml, "hostname", &timings.host)?;
    push_known(xml, "timestamp", &timings.moment)
}

/// Appends the element of a suite of these cases.
fn push_cases(
    xml: &mut String,
    plan: &Plan,
    texts: &Texts,
    timings: &Timings,
    class: &str,
    cases: &[Case],
) -> Result<(), AllocError>
    ensures { OnOk result (string_bytes xml.new ≡ string_bytes xml.old ++ suite_element plan.now texts.now
        (times_of timings.now) class.now cases.now) }
{
    xml.push_str("  <testsuite")?;
    push_counts(xml, timings, class, cases)?;
    push_stamp(xml, timings)?;
    xml.push_str(">\n")?;
    push_lines(xml, plan, texts, timings, class, cases)?;
    xml.push_str("  </testsuite>\n")
}

/// Appends the suite of a node, of whose nodes this was told; nothing where it has no cases.
fn push_suite(
    alloc: Global,
    xml: &mut String,
    plan: &Plan,
    texts: &Texts,
    timings: &Timings,
    told: &[NodeEvents],
    node: NodeId,
) -> Result<(), AllocError>
    requires { node < size plan.now.tree }
    ensures { OnOk result (string_bytes xml.new ≡ string_bytes xml.old
        ++ suite_of plan.now texts.now (times_of timings.now) told.now node) }
{
    let tree = plan.tree();
    let cases = cases_of(alloc, tree, told, node)?;
    if cases.is_empty() {
        return Ok(());
    }
    let class = class_name(alloc, tree, node)?;
    let class = class.as_str();
    push_cases(xml, plan, texts, timings, class, cases.as_slice())
}

/// Appends the suites of all nodes.
fn push_suites(
    alloc: Global,
    xml: &mut String,
    plan: &Plan,
    texts: &Texts,
    timings: &Timings,
    told: &[NodeEvents],
) -> Result<(), AllocError>
    ensures { OnOk result (string_bytes xml.new ≡ string_bytes xml.old
        ++ flat_map (suite_of plan.now texts.now (times_of timings.now) told.now) (range_with_len 0 (size plan.now.tree))) }
{
    let tree = plan.tree();
    for number in 0..tree.len() {
        let node = NodeId::new(number as u16);
        push_suite(alloc, xml, plan, texts, timings, told, node)?;
    }
    Ok(())
}

/// The report of these events in JUnit's XML, from the line of the document's element: a suite for
/// each node of the plan that has cases, and in it an element for each case, with how long its node
/// took; each suite says when the run began and on which machine, where that is known. It takes one
/// pass over the events.
pub fn timed_junit_text(
    alloc: Global,
    plan: &Plan,
    events: &[Event],
    texts: &Texts,
    timings: &Timings,
) -> Result<String, AllocError>
    ensures { IfOk result (λ xml. string_bytes xml ≡ timed_junit_of plan.now texts.now (times_of timings.now)
        events.now) }
{
    let told = node_events(alloc, plan.tree().len(), events)?;
    let mut xml = String::from_str(alloc, "<testsuites>\n")?;
    push_suites(alloc, &mut xml, plan, texts, timings, told.as_slice())?;
    xml.push_str("</testsuites>\n")?;
    Ok(xml)
}

/// The report of these events in JUnit's XML where no time is known: each case says that its node took no time, and no
/// suite when the run began and on which machine.
pub fn junit_text(
    alloc: Global,
    plan: &Plan,
    events: &[Event],
    texts: &Texts,
) -> Result<String, AllocError>
    ensures { IfOk result (λ xml. string_bytes xml ≡ junit_of plan.now texts.now events.now) }
{
    timed_junit_text(alloc, plan, events, texts, &Timings::none(alloc))
}
