//! What becomes of reports in the end.

ghost use Rattle.std.specs.Prelude.{◌≡◌, ◌≤◌, ◌∷◌, [], length, List, ℕ, None, Some, map};
ghost use Rattle.std.specs.Option.{option_or};
ghost use Rattle.launch_options.specs.ReportTexts.{parts_of};
ghost use Rattle.report_files.specs.Deeds.{Deed, Does};
ghost use Rattle.report_files.specs.FiledReports.{AreEnded, IsEnded, answer_with, first_lost, is_kept, lost_or, unless_lost};

use crate::keeper::ReportFiles;
use crate::report::{Outcome, Report};
use launch_options::{LaunchFault, ReportAsked};
use run_outputs::ExitStatus;

/// Keeps a report if all of it was written, and else gives it up; tells whether it is kept.
fn end_report<K: ReportFiles>(
    files: &mut K,
    asked: ReportAsked<'_>,
    report: &Report<K::File>,
) -> bool
    ensures { (deed : Deed) × Does (K.deeds files.old) (K.deeds files.new) (deed ∷ [])
        × IsEnded K.File.contents (parts_of asked.entry) report.now deed × (result ≡ is_kept deed) }
{
    match report.outcome {
        Outcome::Whole => match files.keep(asked.file, &report.file) {
            Ok(()) => true,
            Err(_) => false,
        },
        Outcome::Waiting | Outcome::Cut(_) => {
            files.give_up(asked.file, &report.file);
            false
        }
    }
}

/// The first report that is not kept, with one more that is or is not.
fn lost_with(lost: Option<usize>, kept: bool, number: usize) -> Option<usize>
    ensures { result ≡ option_or lost (lost_or kept number None) }
{
    match lost {
        Some(first) => Some(first),
        None => { if kept { None } else { Some(number) } }
    }
}

/// Keeps each report that is written whole, and gives up the others: those of the first reports that
/// are asked for. Tells the number of the first that is not kept, from 1.
pub fn end_all<K: ReportFiles>(
    files: &mut K,
    wanted: &[ReportAsked<'_>],
    reports: &[Report<K::File>],
) -> Option<usize>
    requires few { length reports.now ≤ length wanted.now }
    ensures { (ends : List Deed) × Does (K.deeds files.old) (K.deeds files.new) ends
        × AreEnded K.File.contents reports.now (map parts_of wanted.now) ends × (result ≡ first_lost 1 ends) }
{
    let mut lost = None;
    for index in 0..reports.len() {
        let kept = end_report(&mut *files, wanted[index], &reports[index]);
        lost = lost_with(lost, kept, index + 1);
    }
    lost
}

/// The answer of a run, where the report of this number is the first that is not kept, if one is not.
pub fn answer_with(
    answer: Result<ExitStatus, LaunchFault>,
    lost: Option<usize>,
) -> Result<ExitStatus, LaunchFault>
    ensures { result ≡ answer_with answer lost }
{
    match answer {
        Ok(status) => match lost {
            None => Ok(status),
            Some(number) => Err(LaunchFault::CutReport(number)),
        },
        Err(fault) => Err(fault),
    }
}
