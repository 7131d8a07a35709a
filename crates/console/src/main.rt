//! The program: a suite from standard input or from a file, what became of it on standard output, and what is wrong on
//! standard error.
#![tactic(auto)]

use command_line::{is_drawn_on, run_main};
use launcher::{LaunchSource, ScriptedJob};
use report_files::SystemFiles;
use std::io::{self, IsTerminal};
use std::process::ExitCode;
use word_files::{SystemFacts, SystemTexts};

fn main(rt: HostRuntime) -> ExitCode {
    let words = std::env::args(&rt);
    let told = SystemFacts::of(&rt, rt.stdin().is_terminal());
    let is_terminal = is_drawn_on(&rt, &rt.stderr());
    let texts = &mut SystemTexts::new(&rt);
    let reader = &mut rt.reader();
    let writer = &mut io::writer(&rt);
    let errors = &mut rt.stderr();
    let files = &mut SystemFiles::new(rt.alloc(), &rt);
    let ending = run_main(
        &rt,
        &rt,
        rt.alloc(),
        words,
        texts,
        &told.facts(),
        is_terminal,
        LaunchSource::<ScriptedJob>::Text,
        reader,
        &mut (),
        writer,
        errors,
        files,
    );
    ExitCode::from(ending.status)
}
