//! What is wrong with what the configuration asks for.

use config_params::{LimitsFault, Params, Settings, SettingsFault, get_over, lock_limits};
use descriptor::Tree;
use launch_options::{Given, Options, key_judged, strategy_names};
use plan_events::MOST_WORKERS;
use std::alloc::{AllocError, Global};
use suite_messages::{push_limit, push_nearest};
use suite_text::Suite;

/// Appends what the value of a key that this refusal is about may be.
fn push_allowed(text: &mut String, fault: SettingsFault) -> Result<(), AllocError> {
    match fault {
        SettingsFault::BadStrategy => {
            let [dynamic, fixed] = strategy_names();
            write!(text, "it is {dynamic} or {fixed}")
        }
        SettingsFault::BadParallelism => text.push_str(
            "with the strategy fixed it is a number of 1 to 9 digits, and not zero",
        ),
        SettingsFault::BadFactor => text.push_str(
            "it has 1 to 6 digits, then perhaps a point and 1 to 4 digits, and is not zero",
        ),
        SettingsFault::BadSlow => {
            text.push_str("it is a number from 1 to 86,400,000, with 1 to 8 digits")
        }
        SettingsFault::BadHolders | SettingsFault::UnknownLock => Ok(()),
    }
}

/// Appends the value of the key that the refusal is about, where there is one, and what it may be.
fn push_value(
    alloc: Global,
    text: &mut String,
    fault: SettingsFault,
    key: &str,
    value: Option<&str>,
) -> Result<(), AllocError> {
    match value {
        Some(value) => write!(text, "{key} is {value:?}: ")?,
        None => write!(text, "{key} has no value: ")?,
    }
    push_allowed(text, fault)?;
    if let (SettingsFault::BadStrategy, Some(value)) = (fault, value) {
        push_nearest(alloc, text, strategy_names().as_slice(), value)?;
    }
    text.push_str("\n")
}

/// Appends how many workers these values and a suite of these properties ask for.
fn push_workers(
    text: &mut String,
    options: &Options,
    properties: &Params,
) -> Result<(), AllocError> {
    let over = options.params_over(properties);
    if let Ok(settings) = Settings::read_over(over, properties, options.processors) {
        let workers = settings.workers;
        let key = key_judged(SettingsFault::BadParallelism).unwrap_or("");
        write!(
            text,
            "It asks for {workers}, and there are 64 at most: lower {key}.\n"
        )?;
    }
    Ok(())
}

/// Appends what the options and these properties ask for that is none: the value that a fault is
/// about, or the limit of a lock of this tree, and without a fault the number of workers.
fn push_asked(
    alloc: Global,
    text: &mut String,
    fault: Option<SettingsFault>,
    options: &Options,
    properties: &Params,
    tree: &Tree,
) -> Result<(), AllocError> {
    let Some(fault) = fault else {
        return push_workers(text, options, properties);
    };
    match key_judged(fault) {
        Some(key) => {
            let value = get_over(&options.params, properties, key);
            push_value(alloc, text, fault, key, value)
        }
        None => push_limit(alloc, text, fault, &options.params, properties, tree),
    }
}

/// Appends what `push_asked` says of these options and of the suite of these bytes; nothing where they are no suite.
fn push_over(
    alloc: Global,
    text: &mut String,
    fault: Option<SettingsFault>,
    options: &Options,
    suite: &[u8],
) -> Result<(), AllocError> {
    match Suite::read(alloc, options.most_nodes, suite) {
        Ok(suite) => push_asked(alloc, text, fault, options, &suite.properties, &suite.tree),
        Err(_) => Ok(()),
    }
}

/// Appends what `push_asked` says of the options that have these values and of the suite of these bytes; nothing where
/// either is refused.
pub(crate) fn push_settings(
    alloc: Global,
    text: &mut String,
    fault: Option<SettingsFault>,
    given: &Given<'_>,
    suite: &[u8],
) -> Result<(), AllocError> {
    match Options::of(alloc, given) {
        Ok(options) => push_over(alloc, text, fault, &options, suite),
        Err(_) => Ok(()),
    }
}

/// How many workers these options and properties ask for, if neither the settings are refused nor the
/// limits of locks of this tree.
fn workers_asked(
    alloc: Global,
    options: &Options,
    properties: &Params,
    tree: &Tree,
) -> Result<u32, LimitsFault> {
    let over = options.params_over(properties);
    let settings = Settings::read_over(over, properties, options.processors)?;
    drop(lock_limits(alloc, over, properties, tree)?);
    Ok(settings.workers)
}

/// Appends what a run by these options and properties, of this tree, would be refused for, of its
/// settings and of the limits of locks.
fn push_refused(
    alloc: Global,
    text: &mut String,
    options: &Options,
    properties: &Params,
    tree: &Tree,
) -> Result<(), AllocError> {
    let fault = match workers_asked(alloc, options, properties, tree) {
        Ok(workers) if workers <= u32::from(MOST_WORKERS) => return Ok(()),
        Ok(_) => None,
        Err(LimitsFault::Refused(fault)) => Some(fault),
        Err(LimitsFault::NoMemory) => return Err(AllocError),
    };
    push_asked(alloc, text, fault, options, properties, tree)
}

/// What is said of the settings of a program's own tests, whose configuration has these properties and
/// whose nodes this tree, where a run by these options is refused for them (32 to 37, 61): which value
/// is wrong, and what it may be. Nothing where they are right; as much as there was memory for.
pub fn said_of_settings(
    alloc: Global,
    options: &Options,
    properties: &Params,
    tree: &Tree,
) -> String {
    let mut said = String::new(alloc);
    let _ = push_refused(alloc, &mut said, options, properties, tree);
    said
}
