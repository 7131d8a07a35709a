//! The parameters of three sources.

ghost use Rattle.std.specs.Prelude.{◌≡◌, ◌≢◌, ◌++◌, ◌∷◌, [], List, ℕ, None, Some, cond, is_some, map, IfOk, IfErr, OnOk, OnErr};
ghost use Rattle.std.specs.Option.{option_map, option_or};
ghost use Rattle.std.specs.Str.Lines.{lines};
ghost use Rattle.config_params.specs.Parameters.{nothing_said, with_value, with_table, answer, answer_before};
ghost use Rattle.config_params.specs.Parameters.{answer_over};
ghost use Rattle.config_params.specs.LockKeys.{limiting, limiting_keys, lock_limited};
ghost use Rattle.config_params.specs.Properties.{refusal_of, pairs_of};
ghost use Rattle.config_params.specs.Tables.{table_of, value_in, last_value};
ghost use Rattle.config_params.specs.declared.source.Source.TheVariants.{File};

use crate::fault::ParamsFault;
use crate::lock_key::lock_limited;
use crate::properties::{refusal_of, table_of};
use crate::source::Source;
use crate::table::Table;
use std::alloc::{AllocError, Global};
use std::marker::Model;

/// Parameters: what a request, the system and a text of properties say of keys.
pub struct Params {
    request: Table,
    system: Table,
    file: Table,
}

impl Drop for Params {
    fn drop(self) {
        let Params {
            request: _,
            system: _,
            file: _,
        } = self;
    }
}

impl Model for Params {
    ghost use Rattle.config_params.specs.Parameters.{Parameters};

    ghost Value = { Parameters };

    ghost view = { λ p. record { request = p.request; system = p.system; file = p.file } };
}

impl Params {
    /// Puts a pair into the table of a source.
    fn put(
        &mut self,
        alloc: Global,
        source: Source,
        key: &str,
        value: &str,
    ) -> Result<(), AllocError>
        ensures ok { OnOk result (self.new ≡ with_value self.old source (key.now, value.now)) }
        ensures err { OnErr result (self.new ≡ self.old) }
    {
        match source {
            Source::Request => self.request.put(alloc, key, value),
            Source::System => self.system.put(alloc, key, value),
            Source::File => self.file.put(alloc, key, value),
        }
    }
}

impl Params {
    /// Parameters of which nothing is said. They take no memory.
    pub fn new(alloc: Global) -> Params
        ensures { result ≡ nothing_said }
    {
        Params {
            request: Table::new(alloc),
            system: Table::new(alloc),
            file: Table::new(alloc),
        }
    }

    /// Adds a parameter. A later value replaces an earlier one of the same source.
    pub fn add(
        &mut self,
        alloc: Global,
        source: Source,
        key: &str,
        value: &str,
    ) -> Result<(), AllocError>
        ensures ok { OnOk result (self.new ≡ with_value self.old source (key.now, value.now)) }
        ensures err { OnErr result (self.new ≡ self.old) }
        // The key has this value then, unless a source before this one has the key.
        ensures seen { OnOk result (answer self.new key.now ≡ option_or (answer_before self.old source key.now)
            (Some value.now)) }
        // Other keys have the values that they had.
        ensures others { OnOk result ((other : List ℕ) → other ≢ key.now → answer self.new other ≡ answer self.old
            other) }
    {
        self.put(alloc, source, key, value)
    }

    /// Replaces what the file says by what a text of properties says. Refusals, at the first faulty
    /// line: 30 where it has no equals sign, 31 where its key is empty.
    pub fn parse_properties(&mut self, alloc: Global, text: &str) -> Result<(), ParamsFault>
        ensures ok { OnOk result (self.new ≡ with_table self.old File (table_of (pairs_of text.now))) }
        ensures err { OnErr result (self.new ≡ self.old) }
        ensures accepted { OnOk result (refusal_of text.now ≡ None) }
        ensures refused { IfErr result (λ fault. fault ≢ ParamsFault.NoMemory → refusal_of text.now ≡ Some fault) }
        // Memory is taken only for a text that is not refused.
        ensures no_memory { IfErr result (λ fault. fault ≡ ParamsFault.NoMemory → refusal_of text.now ≡ None) }
        // Of a repeated key the last value counts.
        ensures last { OnOk result ((key : List ℕ) → value_in self.new.file key ≡ last_value (pairs_of text.now) key) }
    {
        if let Some(fault) = refusal_of(text) {
            return Err(fault);
        }
        self.file = table_of(alloc, text)?;
        Ok(())
    }

    /// Appends the keys that limit a lock, first those of the request, then of the system and of the file.
    fn push_limiting_keys<'a>(&'a self, keys: &mut Vec<&'a str>) -> Result<(), AllocError>
        ensures { OnOk result (map (λ key. key.now) keys.new.items ≡ map (λ key. key.now) keys.old.items
            ++ limiting_keys self.now) }
    {
        push_limiting(keys, &self.request)?;
        push_limiting(keys, &self.system)?;
        push_limiting(keys, &self.file)
    }

    /// The value of a key: that of the first source that has the key.
    pub fn get(&self, key: &str) -> Option<&str>
        ensures { option_map (λ value. value.now) result ≡ answer self.now key.now }
    {
        if let Some(value) = self.request.value_of(key) {
            return Some(value);
        }
        if let Some(value) = self.system.value_of(key) {
            return Some(value);
        }
        self.file.value_of(key)
    }
}

/// Appends a key, if it limits a lock.
fn push_if_limiting<'a>(keys: &mut Vec<&'a str>, key: &'a str) -> Result<(), AllocError>
    ensures { OnOk result (map (λ key. key.now) keys.new.items ≡ map (λ key. key.now) keys.old.items
        ++ cond (is_some (lock_limited key.now)) (key.now ∷ []) []) }
{
    if lock_limited(key).is_some() {
        keys.push(key)?;
    }
    Ok(())
}

/// Appends the keys of a table that limit a lock.
fn push_limiting<'a>(keys: &mut Vec<&'a str>, table: &'a Table) -> Result<(), AllocError>
    ensures { OnOk result (map (λ key. key.now) keys.new.items ≡ map (λ key. key.now) keys.old.items
        ++ limiting table.now) }
{
    for place in 0..table.len() {
        if let Some(key) = table.key_at(place) {
            push_if_limiting(keys, key)?;
        }
    }
    Ok(())
}

/// The keys that limit a lock, of parameters that stand over others, and then of the others.
pub fn limiting_keys<'a>(
    alloc: Global,
    over: &'a Params,
    under: &'a Params,
) -> Result<Vec<&'a str>, AllocError>
    ensures { IfOk result (λ keys. map (λ key. key.now) keys.items ≡ limiting_keys over.now ++ limiting_keys under.now) }
{
    let mut keys = Vec::new(alloc);
    over.push_limiting_keys(&mut keys)?;
    under.push_limiting_keys(&mut keys)?;
    Ok(keys)
}

/// The value of a key where some parameters stand over others: theirs, or else that of the others.
pub fn get_over<'a>(over: &'a Params, under: &'a Params, key: &str) -> Option<&'a str>
    ensures { option_map (λ value. value.now) result ≡ answer_over over.now under.now key.now }
{
    match over.get(key) {
        Some(value) => Some(value),
        None => under.get(key),
    }
}
