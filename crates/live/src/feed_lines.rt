//! The line of an event behind the lines that wait to be printed.

ghost use Rattle.std.specs.Prelude.{◌≡◌, ◌++◌, OnOk, string_bytes};
ghost use Rattle.job_times.specs.Timings.{times_asked, times_of};
ghost use Rattle.listeners.specs.Listeners.{telling};
ghost use Rattle.live.specs.LiveFeeds.{front_of, telling_line};

use crate::line_form::LineForm;
use crate::live_feed::Outlet;
use job_times::Timings;
use plan_events::{Event, Texts};
use reports::push_event;
use resource_locks::Plan;
use run_results::push_feed_line;
use std::alloc::{AllocError, Global};

/// Before the first line, puts what stands in front of it in place of what waits.
pub(crate) fn put_front(pending: &mut String, outlet: Outlet, head: &str) -> Result<(), AllocError>
    ensures { OnOk result (string_bytes pending.new ≡ front_of outlet head.now (string_bytes pending.old)) }
{
    match outlet {
        Outlet::Waiting => {
            pending.clear();
            pending.push_str(head)
        }
        Outlet::Open | Outlet::Closed | Outlet::Failed => Ok(()),
    }
}

/// Appends the object of an event on a line, with the time of its node, if times are told and it is known.
fn push_object(
    alloc: Global,
    pending: &mut String,
    plan: &Plan,
    texts: &Texts,
    timed: bool,
    timings: &Timings,
    event: Event,
) -> Result<(), AllocError>
    ensures { OnOk result (string_bytes pending.new ≡ string_bytes pending.old ++ telling_line LineForm.Json plan.now
        (times_asked timed (times_of timings.now)) (telling texts.now event)) }
{
    if timed {
        push_event(pending, plan, texts, timings, event)
    } else {
        push_event(pending, plan, texts, &Timings::none(alloc), event)
    }
}

/// Appends the line of an event in this form.
pub(crate) fn push_line(
    alloc: Global,
    pending: &mut String,
    form: LineForm,
    plan: &Plan,
    texts: &Texts,
    timed: bool,
    timings: &Timings,
    event: Event,
) -> Result<(), AllocError>
    ensures { OnOk result (string_bytes pending.new ≡ string_bytes pending.old ++ telling_line form plan.now
        (times_asked timed (times_of timings.now)) (telling texts.now event)) }
{
    match form {
        LineForm::Feed => push_feed_line(pending, plan, texts, event),
        LineForm::Json => push_object(alloc, pending, plan, texts, timed, timings, event),
    }
}
