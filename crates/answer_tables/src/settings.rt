//! Questions about configurations. Behind the question stand, each behind a bar, the tokens (`R:`,
//! `S:`) and the texts of properties (`F:`) that are put in first.

use crate::configuration::put_items;
use crate::suites::push_value;
use crate::words::{quote, say, show, subject_and_text};
use config_params::{Params, Settings};
use std::alloc::Global;

/// Adds what settings ask for, and the keys that they warn of.
fn push_described(answer: &mut String, settings: &Settings) {
    say(answer, if settings.parallel { "on" } else { "off" });
    show(answer, " ", settings.workers);
    quote(answer, " ", settings.default_mode);
    quote(answer, " ", settings.classes_mode);
    if let Some(limit) = settings.slow {
        show(answer, " slow ", limit)
    }
    for key in settings.warnings.keys() {
        show(answer, " WARNING ", *key)
    }
}

/// Adds the settings of a machine with so many processors.
fn push_settings(answer: &mut String, params: &Params, processors: u32) {
    match Settings::read(params, processors) {
        Ok(settings) => push_described(answer, &settings),
        Err(fault) => show(answer, "error ", fault.number()),
    }
}

/// Adds the value of a key, where `get` is asked, or else the settings of a machine with so many processors.
pub(crate) fn push_settings_row(alloc: Global, answer: &mut String, asked: &str, text: &str) {
    let (subject, items) = subject_and_text(text);
    let mut params = Params::new(alloc);
    say(answer, " => ");
    put_items(alloc, &mut params, items, answer);
    match asked {
        "get" => push_value(answer, &params, subject),
        _ => push_settings(answer, &params, subject.parse().unwrap_or(0)),
    }
    drop(params)
}
