//! A tag.

ghost use Rattle.std.specs.Prelude.{◌≡◌, ◌≢◌, None, Some, IfOk, IfErr};
ghost use Rattle.std.specs.Str.{trim};
ghost use Rattle.tag_expr.specs.Tags.{tag_refusal};

use crate::characters::first_bad;
use crate::fault::TagFault;
use std::alloc::{AllocError, Global};
use std::marker::Model;

/// A tag: a text that is not blank, without white space, control characters and any of `,()&|!`.
#[derive(Debug)]
pub struct Tag {
    text: String,
}

impl Drop for Tag {
    fn drop(self) {
        let Tag { text: _ } = self;
    }
}

impl Model for Tag {
    ghost use Rattle.std.specs.Prelude.{List, ℕ};
    ghost use Rattle.std.specs.String.{string_bytes};

    ghost Value = { List ℕ };

    ghost view = { λ t. string_bytes t.text };
}

impl Tag {
    /// The tag's text.
    pub fn as_str(&self) -> &str
        ensures { result.now ≡ self.now }
    {
        self.text.as_str()
    }

    /// A copy, in memory of its own.
    pub fn copy(&self, alloc: Global) -> Result<Tag, AllocError>
        ensures { IfOk result (λ tag. tag ≡ self.now) }
    {
        Ok(Tag {
            text: String::from_str(alloc, self.as_str())?,
        })
    }
}

impl Tag {
    /// The tag of this text, which is one.
    pub(crate) fn of_word(alloc: Global, text: &str) -> Result<Tag, AllocError>
        ensures { IfOk result (λ tag. tag ≡ text.now) }
    {
        Ok(Tag {
            text: String::from_str(alloc, text)?,
        })
    }
}

/// The tag that a text is, without the white space at its ends. The first character that no tag
/// has is refusal 21, and so is place 0 of a blank text.
pub fn tag_of(alloc: Global, text: &str) -> Result<Tag, TagFault>
    ensures ok { IfOk result (λ tag. tag ≡ trim text.now) }
    ensures accepted { IfOk result (λ _. tag_refusal text.now ≡ None) }
    ensures refused { IfErr result (λ fault. fault ≢ TagFault.NoMemory → tag_refusal text.now ≡ Some fault) }
    ensures no_memory { IfErr result (λ fault. fault ≡ TagFault.NoMemory → tag_refusal text.now ≡ None) }
{
    if let Some(fault) = tag_refusal(text) {
        return Err(fault);
    }
    Ok(Tag {
        text: String::from_str(alloc, text.trim())?,
    })
}

/// Why the text is no tag.
fn tag_refusal(text: &str) -> Option<TagFault>
    ensures { result ≡ tag_refusal text.now }
{
    let trimmed = text.trim();
    if trimmed.is_empty() {
        return Some(TagFault::BadTag(0));
    }
    let front = text.len() - text.trim_start().len();
    match first_bad(front, trimmed) {
        Some(place) => Some(TagFault::BadTag(place)),
        None => None,
    }
}
