//! The files that the arguments of rows name, and what the system tells.

use std::alloc::{AllocError, Global};
use word_files::{Facts, TextFiles};

/// A name, and the text of the file, or the value of the variable, of that name, if there is one.
#[derive(Drop)]
struct Named {
    name: String,
    text: Option<String>,
}

/// The texts of files, and the values of variables of the system.
#[derive(Drop)]
pub(crate) struct Texts {
    named: Vec<Named>,
}

/// The text that a row says, in which `\n` stands for an end of line.
fn text_of(alloc: Global, said: &str) -> Result<String, AllocError> {
    let mut text = String::new(alloc);
    for (index, piece) in said.split("\\n").enumerate() {
        if index > 0 {
            text.push('\n')?;
        }
        text.push_str(piece)?;
    }
    Ok(text)
}

impl Texts {
    /// No file, and no variable.
    pub(crate) fn new(alloc: Global) -> Texts {
        Texts {
            named: Vec::new(alloc),
        }
    }

    /// From here on the file, and the variable, of a name has a text; or there is none, where a line says
    /// the name alone.
    pub(crate) fn put(&mut self, alloc: Global, line: &str) -> Result<(), AllocError> {
        let named = match line.split_once(' ') {
            Some((name, said)) => Named {
                name: String::from_str(alloc, name)?,
                text: Some(text_of(alloc, said)?),
            },
            None => Named {
                name: String::from_str(alloc, line)?,
                text: None,
            },
        };
        self.named.push(named)?;
        Ok(())
    }

    /// The text of this name, if there is one.
    fn get(&self, name: &str) -> Option<&str> {
        let mut found = None;
        for named in &self.named {
            if named.name.as_str() == name {
                found = match &named.text {
                    Some(text) => Some(text.as_str()),
                    None => None,
                };
            }
        }
        found
    }

    /// How many processors there are, where that is said.
    fn processors(&self) -> Option<u32> {
        match self.get("PROCESSORS") {
            Some(number) => number.parse().ok(),
            None => None,
        }
    }

    /// A seed for those who ask for any, where one is said.
    fn seed(&self) -> Option<u64> {
        match self.get("SEED") {
            Some(number) => number.parse().ok(),
            None => None,
        }
    }

    /// What the system tells.
    pub(crate) fn facts(&self) -> Facts<'_> {
        Facts {
            processors: self.processors(),
            total_shards: self.get("TEST_TOTAL_SHARDS"),
            shard_index: self.get("TEST_SHARD_INDEX"),
            seed: self.seed(),
            host: self.get("HOST"),
            is_typed: self.get("TYPED").is_some(),
        }
    }
}

/// The files of the rows.
#[derive(Clone, Copy)]
pub(crate) struct RowFiles<'a> {
    pub(crate) texts: &'a Texts,
}

impl TextFiles for RowFiles<'_> {
    fn text(&mut self, alloc: Global, name: &str) -> Result<Option<String>, AllocError> {
        match self.texts.get(name) {
            Some(text) => Ok(Some(String::from_str(alloc, text)?)),
            None => Ok(None),
        }
    }

    fn bytes(
        &mut self,
        alloc: Global,
        name: &str,
        most: usize,
    ) -> Result<Option<Vec<u8>>, AllocError> {
        match self.texts.get(name) {
            Some(text) => {
                let bytes = text.as_bytes();
                let mut kept = Vec::new(alloc);
                kept.extend_from_slice(bytes.get(..most).unwrap_or(bytes))?;
                Ok(Some(kept))
            }
            None => Ok(None),
        }
    }
}
