//! What each value means that arguments give the options of a run.

ghost use Rattle.std.specs.Prelude.{◌≡◌, ◌≢◌, ◌+◌, ◌&&◌, not, ℕ, true, List, Some, None, option_map, IfOk, IfErr, OnOk};
ghost use Rattle.std.specs.List.{filter_map};
ghost use Rattle.std.specs.Option.{is_some, option_or};
ghost use Rattle.launch_options.specs.declared.fault.LaunchFault.TheVariants.{NoMemory};
ghost use Rattle.launch_options.specs.Given.{behind, maybe_behind, texts_of, values_of};
ghost use Rattle.launch_options.specs.Asked.{asked_by, theme_named as theme_of_name};
ghost use Rattle.launch_options.specs.DetailsTexts.{details_asked as details_of_both, details_named as details_of_name};
ghost use Rattle.launch_options.specs.Asked.{unless_named, IsReplay, refusal_of, AreAsked, spelled, IsExpression};
ghost use Rattle.launch_options.specs.Asked.{AreExpressions, names_refusal, texts_refusal};
ghost use Rattle.launch_options.specs.Failures.{max_fail_named as max_fail_of_name, tolerated_asked, with_max_fail};
ghost use Rattle.launch_options.specs.NodeLimits.{most_nodes_named as most_nodes_of_name};
ghost use Rattle.launch_options.specs.Parameters.{drive_named as drive_of_name, IsRightDrive, params_refusal};
ghost use Rattle.launch_options.specs.SeedTexts.{seed_named as seed_of_name};
ghost use Rattle.launch_options.specs.ShardTexts.{shard_named as shard_of_name};
ghost use Rattle.launch_options.specs.Parameters.{processors_named as processors_of_name, ring_named as ring_of_name};
ghost use Rattle.launch_options.specs.Workers.{in_long_words, workers_asked};
ghost use Rattle.suite_words.specs.Limits.{node_limit};
ghost use Rattle.table_rule.specs.Limits.{IsRightRing};

use crate::asked::Options;
use crate::details::Details;
use crate::failures::{fails_fast, tolerated_given};
use crate::fault::LaunchFault;
use crate::given::Given;
use crate::judged::judge_texts;
use crate::most_nodes::most_nodes_named;
use crate::parameters::{drive_named, judge_params, params_given, processors_named, ring_named};
use crate::reports::judge_reports;
use crate::seeds::seed_named;
use crate::shards::shard_named;
use crate::themes::theme_of;
use crate::workers::{spread_given, workers_given};
use config_params::Params;
use descriptor::NodeLimit;
use run_results::Theme;
use scheduling::Step;
use selectors::{Request, Selector, SelectorKind, Shard};
use std::alloc::{AllocError, Global};
use step_text::parse_steps;
use suite_words::node_limit;
use tag_expr::TagExpr;

/// What `--details` asks for.
fn details_named(name: Option<&str>) -> Result<Details, LaunchFault>
    ensures named { IfOk result (λ details. details_of_name (maybe_behind name.entry) ≡ Some details) }
    ensures refused { IfErr result (λ fault. unless_named (details_of_name (maybe_behind name.entry)) ≡ Some fault) }
{
    let Some(name) = name else {
        return Ok(Details::Tree);
    };
    match Details::named(name) {
        Some(details) => Ok(details),
        None => Err(LaunchFault::BadWords),
    }
}

/// What `--details` and `--quiet` ask for.
fn details_asked(quiet: bool, name: Option<&str>) -> Result<Details, LaunchFault>
    ensures named { IfOk result (λ details. details_of_both quiet (maybe_behind name.entry) ≡ Some details) }
    ensures refused { IfErr result (λ fault. unless_named (details_of_both quiet (maybe_behind name.entry)) ≡ Some fault) }
{
    if !quiet {
        return details_named(name);
    }
    match name {
        None => Ok(Details::Summary),
        Some(_) => Err(LaunchFault::BadWords),
    }
}

/// What `--details-theme` asks for.
fn theme_named(name: Option<&str>) -> Result<Theme, LaunchFault>
    ensures named { IfOk result (λ theme. theme_of_name (maybe_behind name.entry) ≡ Some theme) }
    ensures refused { IfErr result (λ fault. unless_named (theme_of_name (maybe_behind name.entry)) ≡ Some fault) }
{
    let Some(name) = name else {
        return Ok(Theme::Unicode);
    };
    match theme_of(name) {
        Some(theme) => Ok(theme),
        None => Err(LaunchFault::BadWords),
    }
}

/// The steps that `--replay` names.
fn replay_named(alloc: Global, text: Option<&str>) -> Result<Option<Vec<Step>>, AllocError>
    ensures { IfOk result (λ replay. IsReplay (maybe_behind text.entry) (option_map (λ steps. steps.items) replay)) }
{
    let Some(text) = text else {
        return Ok(None);
    };
    match parse_steps(alloc, text) {
        Ok(steps) => Ok(Some(steps)),
        Err(_) => Err(AllocError),
    }
}

/// The selector of this kind that a text spells.
fn selector(alloc: Global, kind: SelectorKind, text: &str) -> Result<Selector, AllocError>
    ensures { IfOk result (λ selector. spelled (kind, text.now) ≡ Some selector) }
{
    match Selector::parse(alloc, kind, text) {
        Ok(selector) => Ok(selector),
        Err(_) => Err(AllocError),
    }
}

/// The selectors of these texts.
fn selectors_of(alloc: Global, texts: &[(SelectorKind, &str)]) -> Result<Vec<Selector>, AllocError>
    ensures { IfOk result (λ selectors. selectors.items ≡ filter_map spelled (texts_of texts.now)) }
{
    let mut selectors = Vec::new(alloc);
    for (kind, text) in texts {
        selectors.push(selector(alloc, *kind, text)?)?;
    }
    Ok(selectors)
}

/// The tag expression that a text spells.
fn expression(alloc: Global, text: &str) -> Result<TagExpr, AllocError>
    ensures { IfOk result (λ e. IsExpression text.now e) }
{
    match TagExpr::parse(alloc, text) {
        Ok(expression) => Ok(expression),
        Err(_) => Err(AllocError),
    }
}

/// The tag expressions of an option's texts.
fn expressions_of(alloc: Global, texts: &[&str]) -> Result<Vec<TagExpr>, AllocError>
    ensures { IfOk result (λ expressions. AreExpressions (behind texts.now) expressions.items) }
{
    let mut expressions = Vec::new(alloc);
    for text in texts {
        expressions.push(expression(alloc, text)?)?;
    }
    Ok(expressions)
}

/// What is to run, with this shard of it, in the order of this seed.
fn request_of(
    alloc: Global,
    given: &Given<'_>,
    shard: Option<Shard>,
    seed: Option<u64>,
) -> Result<Request, AllocError>
    ensures shard { IfOk result (λ request. request.shard ≡ shard) }
    ensures seed { IfOk result (λ request. request.seed ≡ seed) }
    ensures selectors { IfOk result
        (λ request. request.selectors.items ≡ filter_map spelled (texts_of given.now.selectors.items)) }
    ensures names { IfOk result
        (λ request. request.names.items ≡ filter_map spelled (texts_of given.now.names.items)) }
    ensures exclusions { IfOk result
        (λ request. request.exclusions.items ≡ filter_map spelled (texts_of given.now.exclusions.items)) }
    ensures rerun { IfOk result
        (λ request. request.rerun.items ≡ filter_map spelled (texts_of given.now.rerun.items)) }
    ensures include { IfOk result (λ request. AreExpressions (behind given.now.include_tags.items)
        request.include.items) }
    ensures exclude { IfOk result (λ request. AreExpressions (behind given.now.exclude_tags.items)
        request.exclude.items) }
{
    let mut request = Request {
        selectors: Vec::new(alloc),
        names: Vec::new(alloc),
        rerun: Vec::new(alloc),
        exclusions: Vec::new(alloc),
        include: Vec::new(alloc),
        exclude: Vec::new(alloc),
        shard,
        seed,
    };
    request.selectors = selectors_of(alloc, given.selectors.as_slice())?;
    request.names = selectors_of(alloc, given.names.as_slice())?;
    request.exclusions = selectors_of(alloc, given.exclusions.as_slice())?;
    request.rerun = selectors_of(alloc, given.rerun.as_slice())?;
    request.include = expressions_of(alloc, given.include_tags.as_slice())?;
    request.exclude = expressions_of(alloc, given.exclude_tags.as_slice())?;
    Ok(request)
}

/// What is asked for by a name or by a number.
#[derive(Drop)]
struct Choices {
    details: Details,
    theme: Theme,
    processors: u32,
    ring: u32,
    drive: Option<u32>,
}

/// What `--details` and `--quiet`, `--details-theme`, `--processors`, `--ring` and `--drive` ask for, judged in this order.
fn choices_of(given: &Given<'_>) -> Result<Choices, LaunchFault>
    ensures details { IfOk result (λ choices. details_of_both given.now.quiet (maybe_behind given.now.details)
        ≡ Some choices.details) }
    ensures theme { IfOk result (λ choices. theme_of_name (maybe_behind given.now.theme) ≡ Some choices.theme) }
    ensures processors { IfOk result (λ choices. processors_of_name (maybe_behind given.now.processors)
        ≡ Some choices.processors) }
    ensures ring { IfOk result (λ choices. ring_of_name (maybe_behind given.now.ring) ≡ Some choices.ring) }
    ensures right { IfOk result (λ choices. IsRightRing choices.ring) }
    ensures drive { IfOk result (λ choices. drive_of_name (maybe_behind given.now.drive) ≡ Some choices.drive) }
    ensures right_drive { IfOk result (λ choices. IsRightDrive choices.drive) }
    ensures accepted { IfOk result (λ _. names_refusal (values_of given.now) ≡ None) }
    ensures refused { IfErr result (λ fault. names_refusal (values_of given.now) ≡ Some fault) }
    ensures real { IfErr result (λ fault. fault ≢ NoMemory) }
{
    Ok(Choices {
        details: details_asked(given.quiet, given.details)?,
        theme: theme_named(given.theme)?,
        processors: processors_named(given.processors)?,
        ring: ring_named(given.ring)?,
        drive: drive_named(given.drive)?,
    })
}

/// Judges the values that are texts of their own, and then those that say pairs.
fn judge_values(alloc: Global, given: &Given<'_>) -> Result<(), LaunchFault>
    ensures accepted { OnOk result (option_or (texts_refusal (values_of given.now))
        (params_refusal (values_of given.now)) ≡ None) }
    ensures refused { IfErr result (λ fault. option_or (texts_refusal (values_of given.now))
        (params_refusal (values_of given.now)) ≡ Some fault) }
    ensures real { IfErr result (λ fault. fault ≢ NoMemory) }
{
    judge_texts(alloc, given)?;
    judge_params(given)
}

/// Whether it is so, and no shard is asked for.
fn is_whole(so: bool, shard: &Option<Shard>) -> bool
    ensures { result ≡ (so && not (is_some shard.now)) }
{
    match shard {
        Some(_) => false,
        None => so,
    }
}

/// Whether it is so, and a shard is asked for.
fn is_dealt(so: bool, shard: &Option<Shard>) -> bool
    ensures { result ≡ (so && is_some shard.now) }
{
    match shard {
        Some(_) => so,
        None => false,
    }
}

/// The options of values that were judged, with these choices, so many workers, tolerated failures and nodes,
/// this shard and this seed among them.
fn options_of(
    alloc: Global,
    given: &Given<'_>,
    choices: Choices,
    workers: Option<u32>,
    tolerated: u16,
    most_nodes: Option<NodeLimit>,
    shard: Option<Shard>,
    seed: Option<u64>,
) -> Result<Options, AllocError>
    requires details { details_of_both given.now.quiet (maybe_behind given.now.details) ≡ Some choices.details }
    requires theme { theme_of_name (maybe_behind given.now.theme) ≡ Some choices.theme }
    requires processors { processors_of_name (maybe_behind given.now.processors) ≡ Some choices.processors }
    requires ring { ring_of_name (maybe_behind given.now.ring) ≡ Some choices.ring }
    requires right { IsRightRing choices.ring }
    requires drive { drive_of_name (maybe_behind given.now.drive) ≡ Some choices.drive }
    requires right_drive { IsRightDrive choices.drive }
    requires workers { workers_asked (values_of given.now) ≡ Some workers }
    requires tolerated { tolerated_asked (values_of given.now) ≡ Some tolerated }
    requires most_nodes { most_nodes_of_name (maybe_behind given.now.most_nodes) ≡ Some most_nodes }
    requires shard { shard_of_name (maybe_behind given.now.shard) ≡ Some shard }
    requires seed { seed_of_name (maybe_behind given.now.seed) ≡ Some seed }
    ensures asked { IfOk result (λ options. AreAsked (values_of given.now) (asked_by options)) }
{
    // what ends soonest is read first, so that little is alive where memory runs out
    let needs_tests = is_whole(given.fail_if_no_tests, &shard);
    let needs_selection = is_dealt(given.fail_if_no_tests, &shard);
    let replay = replay_named(alloc, given.replay)?;
    let request = request_of(alloc, given, shard, seed)?;
    let params = params_given(alloc, given, workers)?;
    let spread = spread_given(alloc, given, workers)?;
    Ok(Options {
        request,
        params,
        processors: choices.processors,
        workers,
        spread,
        ring: choices.ring,
        most_nodes,
        details: choices.details,
        theme: choices.theme,
        fail_if_no_tests: needs_tests,
        fail_if_nothing_selected: needs_selection,
        fail_fast: fails_fast(given),
        tolerated,
        schedule: given.schedule,
        times: given.times,
        replay,
        fail_if_passed_over: given.fail_if_passed_over,
        drive: choices.drive,
    })
}

impl Options {
    /// How many nodes the tree of a suite may have, the plan included.
    pub fn tree_limit(&self) -> usize
        ensures { result ≡ node_limit self.now.most_nodes + 1 }
    {
        node_limit(self.most_nodes).nodes() + 1
    }

    /// The options that these values ask for. Details and themes that are none of ours are refusal
    /// 105, and so are details beside `--quiet`, and so is what is no number of processors from 1 to 1,024, what is no number of places of
    /// the ring from 1 to 16,384, what is no number of workers of the fixed schedule from 1 to 64,
    /// what is no number of workers from 1 to 64 and not `auto`, or stands beside one of its keys in
    /// `--config`, what is no number of failures from 1 to 4,095, or stands beside `--fail-fast`, what is no number of nodes from 4,095 to 16,383, what names no shard, what is no seed, and what asks for no report, for two in one file, or for one of
    /// nothing that is run; then a token in the text of `--replay` that names no
    /// step is refusal 104, at its number; then a text that spells no selector is refusal 40, and an
    /// empty pattern of names refusal 43, at its number; then an expression of `--include-tag`, and then of `--exclude-tag`,
    /// is one of 20 to 26, at a place in it; then an argument of `--config` or `--system` that has no
    /// equals sign or an empty key is refusal 30 or 31, at its number, those of `--config` counted
    /// first. Selectors, names, exclusions
    /// and what is to be run again are numbered from 1 in the order of `Given`. All of these are judged before
    /// any of them is kept, so want of memory stands in their place nowhere.
    pub fn of(alloc: Global, given: &Given<'_>) -> Result<Options, LaunchFault>
        ensures asked { IfOk result (λ options. AreAsked (values_of given.now) (asked_by options)) }
        // `--workers` asks for just what its long arguments ask for.
        ensures workers { IfOk result (λ options. (number : ℕ) → options.workers ≡ Some number →
            AreAsked (in_long_words number (values_of given.now)) (record (asked_by options) { workers = None })) }
        // `--fail-fast` asks for just what `--max-fail 1` asks for.
        ensures fail_fast { IfOk result (λ options. (one : List ℕ) → max_fail_of_name (Some one) ≡ Some (Some 1) →
            given.now.fail_fast ≡ true → AreAsked (with_max_fail one (values_of given.now)) (asked_by options)) }
        ensures accepted { IfOk result (λ _. refusal_of (values_of given.now) ≡ None) }
        ensures refused { IfErr result (λ fault. fault ≢ NoMemory → refusal_of (values_of given.now) ≡ Some fault) }
        ensures no_memory { IfErr result (λ fault. fault ≡ NoMemory → refusal_of (values_of given.now) ≡ None) }
    {
        let choices = choices_of(given)?;
        let workers = workers_given(given, choices.processors)?;
        let tolerated = tolerated_given(given)?;
        let most_nodes = most_nodes_named(given.most_nodes)?;
        let shard = shard_named(given.shard)?;
        let seed = seed_named(given.seed)?;
        judge_reports(given, choices.details)?;
        judge_values(alloc, given)?;
        Ok(options_of(
            alloc, given, choices, workers, tolerated, most_nodes, shard, seed,
        )?)
    }
}
