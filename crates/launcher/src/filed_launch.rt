//! A launch of which reports are kept in files besides what it prints.

ghost use Rattle.std.specs.Prelude.{◌≡◌, List, ℕ, Option, length, map, option_map, string_bytes};
ghost use Rattle.job_times.specs.Timings.{times_asked, times_of};
ghost use Rattle.launch_options.specs.Asked.{asked_by};
ghost use Rattle.launch_options.specs.ReportTexts.{parts_of};
ghost use Rattle.launcher.specs.FiledLaunches.{AreFiledBy, IsFiledLaunch, IsOpenedWith};
ghost use Rattle.launcher.specs.Launches.{Sees};
ghost use Rattle.launcher.specs.RunReports.{IsSlowestBy};
ghost use Rattle.launcher.specs.Sources.{Launches, MayLaunch};
ghost use Rattle.report_files.specs.Deeds.{Deed, Does};
ghost use Rattle.report_files.specs.FiledReports.{AreOpened, openings};

use crate::launched::Launched;
use crate::listed::idle;
use crate::run_reports::{report_launched, slowest_launched};
use crate::source::{LaunchSource, launch_source};
use job_times::{RunTimes, Stopwatch};
use launch_options::{Options, ReportAsked};
use listeners::Observer;
use plan_events::Job;
use report_files::{Report, ReportFiles, answer_with, end_all, open_wanted};
use std::alloc::Global;
use std::io::{Read, Write};
use std::sync::Wait;
use std::thread::Threads;

/// Launches what is handed in, writes each report of the run, whose files are open, makes the list of its slowest tests,
/// and keeps the reports or gives them up.
fn launch_opened<
    B: Job + Send,
    T: Threads + Wait + Sync,
    R: Read,
    W: Write,
    V: Observer,
    K: ReportFiles,
    S: Stopwatch + Sync,
>(
    rt: &T,
    alloc: Global,
    options: &Options,
    wanted: &[ReportAsked<'_>],
    files: &mut K,
    reports: &mut [Report<K::File>],
    source: LaunchSource<B>,
    reader: &mut R,
    writer: &mut W,
    observer: &mut V,
    slowest: &mut Option<String>,
    times: &mut RunTimes<'_, S>,
) -> Launched<B>
    requires may { MayLaunch B.answers source }
    requires opened { AreOpened K.File.contents reports.old (map parts_of wanted.now) }
    requires all { length reports.old ≡ length wanted.now }
    ensures filed { (before : Option (List Deed)) →
        Does before (K.deeds files.old) (openings (map parts_of wanted.now)) → IsOpenedWith
        (Launches B.answers B.gives B.says source (asked_by options.now) (times_of times.new.timings) (R.remaining reader.old)
        (R.remaining reader.new) (W.contents writer.old) (W.contents writer.new) result.ran)
        (AreFiledBy options.now.theme (times_asked options.now.times (times_of times.new.timings))
        (map parts_of wanted.now) result.ran) (map parts_of wanted.now) before (K.deeds files.new) result.answer }
    ensures seen { Sees V.saw observer.old observer.new result.ran }
    ensures slowest { IsSlowestBy options.now.times (times_of times.new.timings) result.ran
        (option_map string_bytes slowest.new) }
{
    let launched = launch_source(
        rt,
        alloc,
        options,
        source,
        reader,
        writer,
        observer,
        &mut *times,
    );
    report_launched(alloc, options, &launched, &times.timings, &mut *reports);
    *slowest = slowest_launched(alloc, options.times, &launched, &times.timings);
    let lost = end_all(files, wanted, reports);
    let Launched { answer, ran } = launched;
    Launched {
        answer: answer_with(answer, lost),
        ran,
    }
}

/// Launches what is handed in, and keeps these reports of the run in files, if some are asked for. The files are opened
/// before anything is looked at, and 107 is refused if one cannot be: then all are given up, and nothing is read, run,
/// seen or written. 82 is answered if one is not kept: the others are. If times are asked for, those that are printed
/// stand in each report, and the list of the slowest tests is made by them, if there is memory for it.
pub fn launch_filed<
    B: Job + Send,
    T: Threads + Wait + Sync,
    R: Read,
    W: Write,
    V: Observer,
    K: ReportFiles,
    S: Stopwatch + Sync,
>(
    rt: &T,
    alloc: Global,
    options: &Options,
    wanted: &[ReportAsked<'_>],
    files: &mut K,
    source: LaunchSource<B>,
    reader: &mut R,
    writer: &mut W,
    observer: &mut V,
    slowest: &mut Option<String>,
    times: &mut RunTimes<'_, S>,
) -> Launched<B>
    requires may { MayLaunch B.answers source }
    ensures filed { IsFiledLaunch (Launches B.answers B.gives B.says source (asked_by options.now) (times_of times.new.timings)
        (R.remaining reader.old) (R.remaining reader.new) (W.contents writer.old) (W.contents writer.new))
        options.now.theme (times_asked options.now.times (times_of times.new.timings)) (map parts_of wanted.now)
        (K.deeds files.old) (K.deeds files.new) ((R.remaining reader.new ≡ R.remaining reader.old)
        × (W.contents writer.new ≡ W.contents writer.old)) result.ran result.answer }
    ensures seen { Sees V.saw observer.old observer.new result.ran }
    ensures slowest { IsSlowestBy options.now.times (times_of times.new.timings) result.ran
        (option_map string_bytes slowest.new) }
{
    *slowest = None;
    match open_wanted(alloc, &mut *files, wanted) {
        Ok(opened) => {
            let mut reports = opened;
            launch_opened(
                rt,
                alloc,
                options,
                wanted,
                files,
                reports.as_mut_slice(),
                source,
                reader,
                writer,
                observer,
                slowest,
                times,
            )
        }
        Err(fault) => idle(Err(fault)),
    }
}
