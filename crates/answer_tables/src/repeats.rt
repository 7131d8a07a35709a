//! Lines that stand for many: `*N LINE` is the line N times, with its number for `{}`, the number
//! before it for `{<}`, and so many levels of indentation for `{>}`. Their answer is the last one's.

use crate::table::Table;
use crate::words::{say, show};
use std::alloc::Global;

/// Adds what a mark stands for, of which the brace is cut off, and what follows it.
fn push_mark(filled: &mut String, piece: &str, number: usize) {
    let Some((mark, rest)) = piece.split_once('}') else {
        return say(filled, piece);
    };
    match mark {
        "<" => show(filled, "", number.saturating_sub(1)),
        ">" => push_levels(filled, number),
        _ => show(filled, "", number),
    }
    say(filled, rest)
}

/// Adds so many levels of indentation.
fn push_levels(filled: &mut String, levels: usize) {
    for _level in 0..levels {
        say(filled, "  ");
    }
}

/// Adds a line as it stands for the time of this number.
fn push_filled(filled: &mut String, line: &str, number: usize) {
    let mut pieces = line.split('{');
    say(filled, pieces.next().unwrap_or(""));
    for piece in pieces {
        push_mark(filled, piece, number);
    }
}

/// Adds the answer to a line for the time of this number.
fn push_time(alloc: Global, answer: &mut String, table: &mut Table, line: &str, number: usize) {
    let mut filled = String::new(alloc);
    push_filled(&mut filled, line, number);
    table.push_answer(alloc, answer, filled.as_str());
    drop(filled)
}

/// Reads a line so many times, and leaves the answer to the last.
fn push_repeated(alloc: Global, answer: &mut String, table: &mut Table, times: usize, line: &str) {
    for number in 0..times {
        answer.clear();
        push_time(alloc, answer, table, line, number + 1);
    }
}

/// How many times a line stands for, and for which, if it stands for many.
fn repeated(line: &str) -> Option<(usize, &str)> {
    let (times, line) = line.strip_prefix('*')?.split_once(' ')?;
    Some((times.parse().ok()?, line))
}

/// Adds the answer to a line, or to the last of its repetitions.
pub(crate) fn push_answer(alloc: Global, answer: &mut String, table: &mut Table, line: &str) {
    match repeated(line) {
        Some((times, line)) => push_repeated(alloc, answer, table, times, line),
        None => table.push_answer(alloc, answer, line),
    }
}
