//! What is told of a launch while its run goes on: tests that run longer than their limit, or, on a terminal, how far the
//! run has come.

ghost use Rattle.std.specs.Prelude.{◌≡◌, map, option_map, string_bytes};
ghost use Rattle.launch_options.specs.Asked.{asked_by};
ghost use Rattle.launch_options.specs.ReportTexts.{parts_of};
ghost use Rattle.launcher.specs.Launches.{Sees};
ghost use Rattle.launcher.specs.Sources.{Launches, MayLaunch};
ghost use Rattle.live.specs.SlowNames.{AreNamedBehind};
ghost use Rattle.live.specs.Terminals.{IsDrawnBehind};
ghost use Rattle.command_line.specs.TimedLaunches.{IsTimedLaunch};
ghost use Rattle.command_line.specs.Runs.{IsToldMeanwhile};

use crate::times::{times_by, times_for};
use command_words::Launch;
use job_times::{RunTimes, Stopwatch};
use launcher::{LaunchSource, Launched, Options, launch_filed};
use listeners::Observer;
use live::{Failures, Progress, Running, SlowLines, SlowTests};
use plan_events::Job;
use report_files::{Beside, ReportFiles};
use run_results::Summary;
use std::alloc::Global;
use std::io::{Read, Write};
use std::sync::Wait;
use std::thread::Threads;
use std::time::Clock;

/// Launches what is handed in with the reports that are asked for; both who watch are shown the run.
fn launch_paired<
    B: Job + Send,
    T: Threads + Wait + Sync,
    R: Read,
    W: Write,
    D: Observer,
    V: Observer,
    K: ReportFiles,
    S: Stopwatch + Sync,
>(
    rt: &T,
    alloc: Global,
    launch: &Launch<'_>,
    source: LaunchSource<B>,
    reader: &mut R,
    writer: &mut W,
    files: &mut K,
    pair: &mut Beside<'_, '_, D, V>,
    slowest: &mut Option<String>,
    times: &mut RunTimes<'_, S>,
) -> Launched<B>
    requires may { MayLaunch B.answers source }
    ensures same { pair.new.observer.ghost_name ≡ pair.old.observer.ghost_name }
    ensures same_other { pair.new.other.ghost_name ≡ pair.old.other.ghost_name }
    ensures watched { Sees D.saw pair.old.observer.now pair.new.observer.now result.ran }
    ensures launched { IsTimedLaunch (Launches B.answers B.gives B.says source) V.saw pair.old.other.now pair.new.other.now (asked_by launch.now.options)
        (map parts_of launch.now.reports.items) (R.remaining reader.old) (R.remaining reader.new)
        (W.contents writer.old) (W.contents writer.new) (K.deeds files.old) (K.deeds files.new) result.ran
        result.answer (option_map string_bytes slowest.new) }
{
    let wanted = launch.reports.as_slice();
    launch_filed(
        rt,
        alloc,
        &launch.options,
        wanted,
        files,
        source,
        reader,
        writer,
        pair,
        slowest,
        times,
    )
}

/// Launches what is handed in with the reports that are asked for: both who watch have seen the run.
fn launch_beside<
    B: Job + Send,
    T: Threads + Wait + Sync,
    R: Read,
    W: Write,
    D: Observer,
    V: Observer,
    K: ReportFiles,
    S: Stopwatch + Sync,
>(
    rt: &T,
    alloc: Global,
    launch: &Launch<'_>,
    source: LaunchSource<B>,
    reader: &mut R,
    writer: &mut W,
    files: &mut K,
    observer: &mut D,
    other: &mut V,
    slowest: &mut Option<String>,
    times: &mut RunTimes<'_, S>,
) -> Launched<B>
    requires may { MayLaunch B.answers source }
    ensures watched { Sees D.saw observer.old observer.new result.ran }
    ensures launched { IsTimedLaunch (Launches B.answers B.gives B.says source) V.saw other.old other.new (asked_by launch.now.options)
        (map parts_of launch.now.reports.items) (R.remaining reader.old) (R.remaining reader.new)
        (W.contents writer.old) (W.contents writer.new) (K.deeds files.old) (K.deeds files.new) result.ran
        result.answer (option_map string_bytes slowest.new) }
{
    let mut pair = Beside { observer, other };
    launch_paired(
        rt, alloc, launch, source, reader, writer, files, &mut pair, slowest, times,
    )
}

/// Launches what is handed in; this one names the tests that run longer than their limit.
fn launch_named<
    B: Job + Send,
    T: Threads + Wait + Sync,
    C: Clock + Sync + Drop,
    R: Read,
    W: Write,
    E: Write,
    V: Observer,
    K: ReportFiles,
    S: Stopwatch + Sync,
>(
    rt: &T,
    alloc: Global,
    launch: &Launch<'_>,
    source: LaunchSource<B>,
    reader: &mut R,
    writer: &mut W,
    files: &mut K,
    lines: &mut SlowLines<'_, '_, '_, '_, E, C, Failures>,
    observer: &mut V,
    slowest: &mut Option<String>,
    times: &mut RunTimes<'_, S>,
) -> Launched<B>
    requires may { MayLaunch B.answers source }
    ensures same { lines.new.errors.ghost_name ≡ lines.old.errors.ghost_name }
    ensures names { AreNamedBehind (E.contents lines.old.errors.now) (E.contents lines.new.errors.now) }
    ensures launched { IsTimedLaunch (Launches B.answers B.gives B.says source) V.saw observer.old observer.new (asked_by launch.now.options)
        (map parts_of launch.now.reports.items) (R.remaining reader.old) (R.remaining reader.new)
        (W.contents writer.old) (W.contents writer.new) (K.deeds files.old) (K.deeds files.new) result.ran
        result.answer (option_map string_bytes slowest.new) }
{
    launch_beside(
        rt, alloc, launch, source, reader, writer, files, lines, observer, slowest, times,
    )
}

/// Launches what is handed in on the machine of this name, and names the tests that run longer than their limit. The nodes
/// that failed are kept in this list, and who watches is shown the run.
fn launch_quiet<
    B: Job + Send,
    T: Threads + Wait + Sync,
    C: Clock + Sync + Drop,
    R: Read,
    W: Write,
    E: Write,
    V: Observer,
    K: ReportFiles,
>(
    rt: &T,
    clock: &C,
    alloc: Global,
    launch: &Launch<'_>,
    host: Option<&str>,
    source: LaunchSource<B>,
    reader: &mut R,
    writer: &mut W,
    errors: &mut E,
    files: &mut K,
    failures: &mut Failures,
    observer: &mut V,
    slowest: &mut Option<String>,
) -> Launched<B>
    requires may { MayLaunch B.answers source }
    ensures names { AreNamedBehind (E.contents errors.old) (E.contents errors.new) }
    ensures launched { IsTimedLaunch (Launches B.answers B.gives B.says source) V.saw observer.old observer.new (asked_by launch.now.options)
        (map parts_of launch.now.reports.items) (R.remaining reader.old) (R.remaining reader.new)
        (W.contents writer.old) (W.contents writer.new) (K.deeds files.old) (K.deeds files.new) result.ran
        result.answer (option_map string_bytes slowest.new) }
{
    let nodes = source.most_nodes(&launch.options);
    let stopwatch = times_by(alloc, clock, nodes, launch.options.times);
    let mut times = times_for(alloc, clock, host, launch.options.times, &stopwatch);
    let mut tests = SlowTests::new(alloc);
    let mut lines = SlowLines::new(errors, &stopwatch, &mut tests, failures);
    launch_named(
        rt, alloc, launch, source, reader, writer, files, &mut lines, observer, slowest, &mut times,
    )
}

/// Whether lines are printed while the run goes on.
fn prints_lines(options: &Options) -> bool {
    options.replay.is_none() && options.drive.is_none() && options.details.prints_live()
}

/// Launches what is handed in; this one draws how far the run has come.
fn launch_followed<
    B: Job + Send,
    T: Threads + Wait + Sync,
    C: Clock + Sync + Drop,
    R: Read,
    W: Write,
    E: Write,
    V: Observer,
    K: ReportFiles,
    S: Stopwatch + Sync,
>(
    rt: &T,
    alloc: Global,
    launch: &Launch<'_>,
    source: LaunchSource<B>,
    reader: &mut R,
    writer: &mut W,
    files: &mut K,
    progress: &mut Progress<'_, '_, '_, '_, E, C>,
    observer: &mut V,
    slowest: &mut Option<String>,
    times: &mut RunTimes<'_, S>,
) -> Launched<B>
    requires may { MayLaunch B.answers source }
    ensures same { progress.new.terminal.ghost_name ≡ progress.old.terminal.ghost_name }
    ensures draws { IsDrawnBehind (E.contents progress.old.terminal.now) (E.contents progress.new.terminal.now) }
    ensures launched { IsTimedLaunch (Launches B.answers B.gives B.says source) V.saw observer.old observer.new (asked_by launch.now.options)
        (map parts_of launch.now.reports.items) (R.remaining reader.old) (R.remaining reader.new)
        (W.contents writer.old) (W.contents writer.new) (K.deeds files.old) (K.deeds files.new) result.ran
        result.answer (option_map string_bytes slowest.new) }
{
    launch_beside(
        rt, alloc, launch, source, reader, writer, files, progress, observer, slowest, times,
    )
}

/// Launches what is handed in on the machine of this name, and draws on a terminal how far the run has come, on a line that
/// is drawn anew at most ten times a second by this clock, and is erased at the end. The nodes that failed are kept in this
/// list, and who watches is shown the run.
fn launch_drawn<
    B: Job + Send,
    T: Threads + Wait + Sync,
    C: Clock + Sync + Drop,
    R: Read,
    W: Write,
    E: Write,
    V: Observer,
    K: ReportFiles,
>(
    rt: &T,
    clock: &C,
    alloc: Global,
    launch: &Launch<'_>,
    host: Option<&str>,
    source: LaunchSource<B>,
    reader: &mut R,
    writer: &mut W,
    errors: &mut E,
    files: &mut K,
    failures: &mut Failures,
    observer: &mut V,
    slowest: &mut Option<String>,
) -> Launched<B>
    requires may { MayLaunch B.answers source }
    ensures draws { IsDrawnBehind (E.contents errors.old) (E.contents errors.new) }
    ensures launched { IsTimedLaunch (Launches B.answers B.gives B.says source) V.saw observer.old observer.new (asked_by launch.now.options)
        (map parts_of launch.now.reports.items) (R.remaining reader.old) (R.remaining reader.new)
        (W.contents writer.old) (W.contents writer.new) (K.deeds files.old) (K.deeds files.new) result.ran
        result.answer (option_map string_bytes slowest.new) }
{
    let nodes = source.most_nodes(&launch.options);
    let stopwatch = times_by(alloc, clock, nodes, true);
    let mut times = times_for(alloc, clock, host, launch.options.times, &stopwatch);
    let mut summary = Summary::new(alloc);
    let mut running = Running::new(alloc);
    let mut slow = SlowTests::new(alloc);
    let mut progress = Progress::new(
        alloc,
        errors,
        clock,
        prints_lines(&launch.options),
        &mut summary,
        failures,
        &mut running,
        &stopwatch,
        &mut slow,
    );
    launch_followed(
        rt,
        alloc,
        launch,
        source,
        reader,
        writer,
        files,
        &mut progress,
        observer,
        slowest,
        &mut times,
    )
}

/// Launches what is handed in, on the machine of this name, with the reports that are asked for. Meanwhile it is told on the
/// other writer, if that is a terminal, how far the run has come, and else which tests run longer than their limit. The
/// nodes that failed are kept in this list, and who watches is shown the run.
pub fn launch_told<
    B: Job + Send,
    T: Threads + Wait + Sync,
    C: Clock + Sync + Drop,
    R: Read,
    W: Write,
    E: Write,
    V: Observer,
    K: ReportFiles,
>(
    rt: &T,
    clock: &C,
    alloc: Global,
    launch: &Launch<'_>,
    host: Option<&str>,
    is_terminal: bool,
    source: LaunchSource<B>,
    reader: &mut R,
    writer: &mut W,
    errors: &mut E,
    files: &mut K,
    failures: &mut Failures,
    observer: &mut V,
    slowest: &mut Option<String>,
) -> Launched<B>
    requires may { MayLaunch B.answers source }
    ensures tells { IsToldMeanwhile is_terminal (E.contents errors.old) (E.contents errors.new) }
    ensures launched { IsTimedLaunch (Launches B.answers B.gives B.says source) V.saw observer.old observer.new (asked_by launch.now.options)
        (map parts_of launch.now.reports.items) (R.remaining reader.old) (R.remaining reader.new)
        (W.contents writer.old) (W.contents writer.new) (K.deeds files.old) (K.deeds files.new) result.ran
        result.answer (option_map string_bytes slowest.new) }
{
    if is_terminal {
        launch_drawn(
            rt, clock, alloc, launch, host, source, reader, writer, errors, files, failures,
            observer, slowest,
        )
    } else {
        launch_quiet(
            rt, clock, alloc, launch, host, source, reader, writer, errors, files, failures,
            observer, slowest,
        )
    }
}
