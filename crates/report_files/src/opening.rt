//! How the files of reports are opened.

ghost use Rattle.std.specs.Prelude.{◌≡◌, ◌≢◌, ◌<◌, ◌≤◌, ◌+◌, ◌∷◌, [], length, take, map, IfErr, IfOk, IsFalse, IsTrue};
ghost use Rattle.std.specs.Prelude.{vec_len, vec_capacity};
ghost use Rattle.launch_options.specs.ReportTexts.{parts_of};
ghost use Rattle.report_files.specs.Deeds.{Does};
ghost use Rattle.report_files.specs.FiledReports.{AreOpened, IsUnopened, OpensNext, openings};

use crate::ending::end_all;
use crate::keeper::ReportFiles;
use crate::report::{Outcome, Report};
use launch_options::{LaunchFault, ReportAsked};
use std::alloc::Global;

/// Opens a file for one report more; tells whether it could be opened.
fn open_next<K: ReportFiles>(
    files: &mut K,
    asked: ReportAsked<'_>,
    reports: &mut Vec<Report<K::File>>,
) -> bool
    requires room { vec_len reports.old < vec_capacity reports.old }
    ensures opened { OpensNext K.File.contents (parts_of asked.entry) reports.old.items reports.new.items
        (K.deeds files.old) (K.deeds files.new) result }
    ensures count { IsTrue result → vec_len reports.new ≡ vec_len reports.old + 1 }
    ensures capacity { vec_capacity reports.new ≡ vec_capacity reports.old }
{
    match files.open(asked.file) {
        Ok(file) => {
            reports.push_reserved(Report {
                form: asked.form,
                file,
                outcome: Outcome::Waiting,
            });
            true
        }
        Err(_) => false,
    }
}

/// Opens a file for each of these reports, up to the first that could not be opened; tells whether all could.
fn open_each<K: ReportFiles>(
    files: &mut K,
    wanted: &[ReportAsked<'_>],
    reports: &mut Vec<Report<K::File>>,
) -> bool
    requires none { reports.old.items ≡ [] }
    requires room { length wanted.now ≤ vec_capacity reports.old }
    ensures opened { AreOpened K.File.contents reports.new.items (map parts_of wanted.now) }
    ensures did { Does (K.deeds files.old) (K.deeds files.new)
        (openings (take (length reports.new.items) (map parts_of wanted.now))) }
    ensures all { IsTrue result → length reports.new.items ≡ length wanted.now }
    ensures some { IsFalse result → length reports.new.items < length wanted.now }
{
    for index in 0..wanted.len() {
        if !open_next(&mut *files, wanted[index], &mut *reports) {
            return false;
        }
    }
    true
}

/// The reports that are asked for, each with an empty file. If one cannot be opened (107) those before it are
/// given up.
fn open_all<K: ReportFiles>(
    alloc: Global,
    files: &mut K,
    wanted: &[ReportAsked<'_>],
) -> Result<Vec<Report<K::File>>, LaunchFault>
    ensures opened { IfOk result (λ reports. AreOpened K.File.contents reports.items (map parts_of wanted.now)) }
    ensures all { IfOk result (λ reports. length reports.items ≡ length wanted.now) }
    ensures did { IfOk result (λ _. Does (K.deeds files.old) (K.deeds files.new)
        (openings (map parts_of wanted.now))) }
    ensures refused { IfErr result (IsUnopened (map parts_of wanted.now) (K.deeds files.old) (K.deeds files.new)) }
{
    let mut reports = Vec::with_capacity(alloc, wanted.len())?;
    if open_each(&mut *files, wanted, &mut reports) {
        return Ok(reports);
    }
    end_all(files, wanted, reports.as_slice());
    Err(LaunchFault::BadReport(reports.len() + 1))
}

/// The files of these reports, as `open_all` opens them. Where none is asked for that cannot fail, and no file is touched.
pub fn open_wanted<K: ReportFiles>(
    alloc: Global,
    files: &mut K,
    wanted: &[ReportAsked<'_>],
) -> Result<Vec<Report<K::File>>, LaunchFault>
    ensures opened { IfOk result (λ reports. AreOpened K.File.contents reports.items (map parts_of wanted.now)) }
    ensures all { IfOk result (λ reports. length reports.items ≡ length wanted.now) }
    ensures did { IfOk result (λ _. Does (K.deeds files.old) (K.deeds files.new)
        (openings (map parts_of wanted.now))) }
    ensures refused { IfErr result (IsUnopened (map parts_of wanted.now) (K.deeds files.old) (K.deeds files.new)) }
    ensures some { IfErr result (λ _. length wanted.now ≢ 0) }
{
    if wanted.is_empty() {
        return Ok(Vec::new(alloc));
    }
    open_all(alloc, files, wanted)
}
