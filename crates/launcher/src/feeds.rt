//! Which lines are printed while a run goes on, and what is answered where one broke off.

ghost use Rattle.std.specs.Prelude.{◌≡◌, ◌≢◌, ◌<◌, None};
ghost use Rattle.launch_options.specs.Asked.{asked_by};
ghost use Rattle.launch_options.specs.Faults.{cut_by_memory, cut_by_writer};
ghost use Rattle.launcher.specs.Watched.{form_by, outlet_by};

use launch_options::{CutCause, CutOutput, Details, LaunchFault, Options};
use live::{LineForm, Outlet};

/// Whether lines are printed while a run on threads goes on: those of events are.
fn threads_outlet(details: Details) -> Outlet
    ensures { result ≡ outlet_by details None None }
{
    if details.prints_live() {
        Outlet::Waiting
    } else {
        Outlet::Closed
    }
}

/// Whether lines are printed while the run goes on: never of steps that are taken without threads.
pub(crate) fn outlet_for(options: &Options) -> Outlet
    ensures { result ≡ outlet_by options.now.details (asked_by options.now).replay options.now.drive }
{
    match &options.replay {
        Some(_) => Outlet::Closed,
        None => match options.drive {
            Some(_) => Outlet::Closed,
            None => threads_outlet(options.details),
        },
    }
}

/// The form of these lines.
pub(crate) fn form_for(details: Details) -> LineForm
    ensures { result ≡ form_by details }
{
    match details {
        Details::Json => LineForm::Json,
        Details::None
        | Details::Summary
        | Details::Tree
        | Details::Testfeed
        | Details::Xml
        | Details::List
        | Details::Plan => LineForm::Feed,
    }
}

/// What is answered where a run broke off by this fault, of whose feed so many bytes were printed: that its writer
/// failed was found before; and who has a part of a feed is told that memory for the rest was wanting.
pub(crate) fn broken_off(fault: LaunchFault, outlet: Outlet, sent: usize) -> LaunchFault
    ensures failed { outlet ≡ Outlet.Failed → result ≡ LaunchFault.Writing (cut_by_writer sent) }
    ensures some { outlet ≢ Outlet.Failed → 0 < sent → result ≡ LaunchFault.Writing (cut_by_memory sent) }
    ensures none { outlet ≢ Outlet.Failed → sent ≡ 0 → result ≡ fault }
{
    match outlet {
        Outlet::Failed => LaunchFault::Writing(CutOutput {
            sent,
            cause: CutCause::Writer,
        }),
        Outlet::Waiting | Outlet::Open | Outlet::Closed => {
            if sent > 0 {
                LaunchFault::Writing(CutOutput {
                    sent,
                    cause: CutCause::Memory,
                })
            } else {
                fault
            }
        }
    }
}
