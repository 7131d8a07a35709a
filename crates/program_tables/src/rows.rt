//! What a row says: the arguments of a command line, and the bytes of a suite.

use std::alloc::{AllocError, Global};

/// What the keys of the configuration begin with.
const KEYS: &str = "junit.jupiter.execution.parallel.";

/// The text of an argument, in which `\p` stands for what the keys of the configuration begin with.
fn word_of(alloc: Global, word: &str) -> Result<String, AllocError> {
    match word.split_once("\\p") {
        Some((front, rest)) => format!(in alloc; "{front}{KEYS}{rest}"),
        None => String::from_str(alloc, word),
    }
}

/// Appends an argument.
fn push_word(alloc: Global, words: &mut Vec<String>, word: &str) -> Result<(), AllocError> {
    words.push(word_of(alloc, word)?)?;
    Ok(())
}

/// Appends the arguments between spaces.
fn push_words(alloc: Global, words: &mut Vec<String>, piece: &str) -> Result<(), AllocError> {
    for word in piece.split(' ') {
        if !word.is_empty() {
            push_word(alloc, words, word)?;
        }
    }
    Ok(())
}

/// Appends the arguments of a line, cut at spaces; what stands between two `"` is one argument, spaces and all.
pub(crate) fn push_line(
    alloc: Global,
    words: &mut Vec<String>,
    line: &str,
) -> Result<(), AllocError> {
    for (index, piece) in line.split('"').enumerate() {
        if index % 2 == 1 {
            push_word(alloc, words, piece)?;
        } else {
            push_words(alloc, words, piece)?;
        }
    }
    Ok(())
}

/// The bytes of hexadecimal numbers between spaces.
fn bytes_of(alloc: Global, codes: &str) -> Result<Vec<u8>, AllocError> {
    let mut bytes = Vec::new(alloc);
    for code in codes.split(' ') {
        bytes.push(u8::from_str_radix(code, 16).unwrap_or(0))?;
    }
    Ok(bytes)
}

/// Appends these bytes so many times.
fn push_times(suite: &mut Vec<u8>, count: u32, bytes: &[u8]) -> Result<(), AllocError> {
    for _ in 0..count {
        suite.extend_from_slice(bytes)?;
    }
    Ok(())
}

/// Appends so many times the bytes with these numbers, as in `3 23 0a`.
fn push_bytes(alloc: Global, suite: &mut Vec<u8>, times: &str) -> Result<(), AllocError> {
    let (count, codes) = times.split_once(' ').unwrap_or((times, ""));
    let bytes = bytes_of(alloc, codes)?;
    push_times(suite, count.parse().unwrap_or(0), bytes.as_slice())
}

/// Appends lines of so many passing tests.
fn push_tests(alloc: Global, suite: &mut Vec<u8>, count: u32) -> Result<(), AllocError> {
    for number in 0..count {
        let line = format!(in alloc; "    test t{number}() pass\n")?;
        suite.extend_from_slice(line.as_bytes())?;
    }
    Ok(())
}

/// Appends a line of a suite. `\times N 23 0a` stands for N times the bytes with these numbers, without an end of line,
/// and `\tests N` for lines of N passing tests, `t0()` and so on.
pub(crate) fn push_suite_line(
    alloc: Global,
    suite: &mut Vec<u8>,
    line: &str,
) -> Result<(), AllocError> {
    if let Some(times) = line.strip_prefix("\\times ") {
        return push_bytes(alloc, suite, times);
    }
    if let Some(count) = line.strip_prefix("\\tests ") {
        return push_tests(alloc, suite, count.parse().unwrap_or(0));
    }
    suite.extend_from_slice(line.as_bytes())?;
    suite.push(b'\n')?;
    Ok(())
}
