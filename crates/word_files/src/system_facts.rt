//! What the system tells.

use crate::facts::Facts;
use std::env::{Env, var};
use std::fs::{self, File, Files};
use std::thread::{Threads, available_parallelism};
use std::time::{Clock, SystemTime};

/// Where Linux tells the name of the machine.
const HOST_NAME_FILE: &str = "/proc/sys/kernel/hostname";

/// The variable that names the file which Bazel asks for, and those of a shard.
const SHARD_STATUS_FILE: &str = "TEST_SHARD_STATUS_FILE";

const TOTAL_SHARDS: &str = "TEST_TOTAL_SHARDS";

const SHARD_INDEX: &str = "TEST_SHARD_INDEX";

/// What the system tells a program when it starts.
#[derive(Drop)]
pub struct SystemFacts {
    processors: Option<u32>,
    total_shards: Option<String>,
    shard_index: Option<String>,
    seed: Option<u64>,
    host: Option<String>,
    is_typed: bool,
}

impl SystemFacts {
    /// What this system tells now, where standard input is a terminal or is none. A build server is told that shards are known here: Bazel asks for a file to be
    /// touched.
    pub fn of<S: Threads + Clock + Env + Files + AllocGlobal>(
        system: &S,
        is_typed: bool,
    ) -> SystemFacts {
        touch_shard_file(system);
        SystemFacts {
            processors: processors(system),
            total_shards: variable(system, TOTAL_SHARDS),
            shard_index: variable(system, SHARD_INDEX),
            seed: any_seed(system),
            host: host_name(system),
            is_typed,
        }
    }

    /// These facts as the program takes them: their texts are lent.
    pub fn facts(&self) -> Facts<'_> {
        Facts {
            processors: self.processors,
            total_shards: text_of(&self.total_shards),
            shard_index: text_of(&self.shard_index),
            seed: self.seed,
            host: text_of(&self.host),
            is_typed: self.is_typed,
        }
    }
}

/// The text of a value, if there is one.
fn text_of(value: &Option<String>) -> Option<&str> {
    match value {
        Some(text) => Some(text.as_str()),
        None => None,
    }
}

/// The value of a variable, if it is set and is UTF-8.
fn variable<S: Env + AllocGlobal>(system: &S, name: &str) -> Option<String> {
    match var(system, name) {
        Ok(value) => Some(value),
        Err(_) => None,
    }
}

/// How many processors there are, if the system tells it.
fn processors<S: Threads>(system: &S) -> Option<u32> {
    match available_parallelism(system) {
        Ok(count) => u32::try_from(count.get()).ok(),
        Err(_) => None,
    }
}

/// A seed for those who ask for any: the nanoseconds that have gone by of the clock's second.
fn any_seed<C: Clock>(clock: &C) -> Option<u64> {
    let Ok(now) = SystemTime::now(clock) else {
        return None;
    };
    match now.duration_since(SystemTime::UNIX_EPOCH) {
        Ok(past) => Some(u64::from(past.subsec_nanos())),
        Err(_) => None,
    }
}

/// The name of the machine, if the system tells it: what stands before the file's end of line.
fn host_name<S: Files + AllocGlobal>(system: &S) -> Option<String> {
    let text = fs::read_to_string(system, HOST_NAME_FILE).ok()?;
    let name = text.as_str().trim_end();
    if name.is_empty() {
        return None;
    }
    String::from_str(system.alloc(), name).ok()
}

/// Touches the file that a build server asks for, if it does.
fn touch_shard_file<S: Env + Files + AllocGlobal>(system: &S) {
    if let Some(path) = variable(system, SHARD_STATUS_FILE) {
        let _ = File::create(system, path.as_str());
    }
}
