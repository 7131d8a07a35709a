//! The canonical text of a unique id.

ghost use Rattle.std.specs.Prelude.{◌≡◌, [], string_bytes};

use arrayvec::ArrayString;
use std::marker::Model;

/// The greatest length of a text that stands in the value itself, in bytes.
const LONGEST_INLINE: usize = 64;

/// Where the bytes of a canonical text are.
#[derive(Drop)]
enum Spelled {
    InPlace(ArrayString<LONGEST_INLINE>),
    Own(String),
}

/// A text that contracts see as its bytes. One of at most 64 bytes takes no memory of its own.
#[derive(Drop)]
pub struct CanonicalText {
    spelled: Spelled,
}

impl Model for CanonicalText {
    ghost use Rattle.std.specs.Prelude.{List, ℕ};
    ghost use Rattle.unique_id.specs.Texts.{spelled_bytes};

    ghost Value = { List ℕ };

    ghost view = { λ t. spelled_bytes t.spelled };
}

impl CanonicalText {
    /// The spelling that is this text; a short one is kept in place.
    pub fn of(text: String) -> CanonicalText
        ensures { result ≡ string_bytes text }
    {
        let spelled = match ArrayString::from(text.as_str()) {
            Ok(short) => Spelled::InPlace(short),
            Err(_) => Spelled::Own(text),
        };
        CanonicalText { spelled }
    }

    /// The empty spelling. It takes no memory.
    pub fn empty() -> CanonicalText
        ensures { result ≡ [] }
    {
        CanonicalText {
            spelled: Spelled::InPlace(ArrayString::new()),
        }
    }

    /// The text as it is.
    pub fn as_str(&self) -> &str
        ensures { result.now ≡ self.now }
    {
        match &self.spelled {
            Spelled::InPlace(text) => text.as_str(),
            Spelled::Own(text) => text.as_str(),
        }
    }
}
