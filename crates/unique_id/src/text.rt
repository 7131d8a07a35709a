//! A text that contracts see as its bytes.

ghost use Rattle.std.specs.Prelude.{◌≡◌, [], IfOk};

use arrayvec::ArrayString;
use std::alloc::{AllocError, Global};
use std::fmt;
use std::marker::Model;
use std::sync::Arc;

/// The greatest length of a text that stands in the value itself, in bytes.
const LONGEST_INLINE: usize = 24;

/// Where the bytes of a text are.
#[derive(Drop)]
enum Bytes {
    Inline(ArrayString<LONGEST_INLINE>),
    // all copies share them
    Shared(Arc<String>),
}

/// A text that contracts see as its bytes. It is cheap to copy: a text of at most 24 bytes takes no
/// memory of its own, and all copies of a longer one share their bytes.
pub struct Text {
    bytes: Bytes,
}

impl Drop for Text {
    fn drop(self) {
        let Text { bytes: _ } = self;
    }
}

impl Model for Text {
    ghost use Rattle.std.specs.Prelude.{List, ℕ};
    ghost use Rattle.unique_id.specs.Texts.{bytes_of};

    ghost Value = { List ℕ };

    ghost view = { λ t. bytes_of t.bytes };
}

impl fmt::Debug for Text {
    fn fmt<W: fmt::Write>(&self, f: &mut fmt::Formatter<W>) -> fmt::Result {
        fmt::Debug::fmt(self.as_str(), f)
    }
}

impl Text {
    /// A text with these bytes. A short one stands in place and takes no memory; a longer one may be shared by copies.
    pub fn new(alloc: Global, text: &str) -> Result<Text, AllocError>
        ensures { IfOk result (λ t. t ≡ text.now) }
    {
        let bytes = match ArrayString::from(text) {
            Ok(short) => Bytes::Inline(short),
            Err(_) => Bytes::Shared(Arc::new(alloc, String::from_str(alloc, text)?)?),
        };
        Ok(Text { bytes })
    }

    /// No text. It takes no memory.
    pub fn empty() -> Text
        ensures { result ≡ [] }
    {
        Text {
            bytes: Bytes::Inline(ArrayString::new()),
        }
    }

    /// The text as it is.
    pub fn as_str(&self) -> &str
        ensures { result.now ≡ self.now }
    {
        match &self.bytes {
            Bytes::Inline(text) => text.as_str(),
            Bytes::Shared(text) => text.as_str(),
        }
    }

    /// A copy. It takes no memory, since a long text is shared; an `Err` says that no more copies of it can be counted.
    pub fn copy(&self) -> Result<Text, AllocError>
        ensures { IfOk result (λ t. t ≡ self.now) }
    {
        let bytes = match &self.bytes {
            Bytes::Inline(text) => Bytes::Inline(*text),
            Bytes::Shared(text) => Bytes::Shared(Arc::try_clone(text)?),
        };
        Ok(Text { bytes })
    }
}
