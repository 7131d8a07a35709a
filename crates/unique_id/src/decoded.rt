//! The bytes of a part while it is read.

ghost use Rattle.std.specs.Prelude.{◌≡◌, ◌<◌, ◌≤◌, [], ◌∷◌, ◌++◌, length, IfSome, is_some};
ghost use Rattle.std.specs.Str.{is_utf8};

use std::marker::Model;

/// The most bytes that a part can have.
const MOST_BYTES: usize = 1024;

/// The bytes that a part stands for, which take no memory of their own.
#[derive(Drop)]
pub struct Decoded {
    bytes: [u8; MOST_BYTES],
    len: usize,
}

impl Model for Decoded {
    ghost use Rattle.std.specs.Prelude.{ℕ, ◌≤◌, List, take};

    ghost Value = { List ℕ };

    ghost view = { λ d. take d.len d.bytes };

    ghost invariant = { λ d. d.len ≤ 1024 };
}

impl Decoded {
    /// No bytes yet.
    pub fn new() -> Decoded
        ensures { result ≡ [] }
    {
        Decoded {
            bytes: [0; MOST_BYTES],
            len: 0,
        }
    }

    /// One more byte.
    pub fn push(&mut self, byte: u8)
        requires { length self.old < 1024 }
        ensures { self.new ≡ self.old ++ byte ∷ [] }
    {
        self.bytes[self.len] = byte;
        self.len += 1;
    }

    /// The bytes.
    pub fn as_slice(&self) -> &[u8]
        ensures bytes { result.now ≡ self.now }
        ensures short { length self.now ≤ 1024 }
    {
        &self.bytes[..self.len]
    }

    /// Whether the bytes are a text.
    pub fn is_text(&self) -> bool
        ensures { result ≡ is_utf8 self.now }
    {
        std::str::from_utf8(self.as_slice()).is_ok()
    }

    /// The bytes as a text, if they are one.
    pub fn text(&self) -> Option<&str>
        ensures text { IfSome result (λ text. text.now ≡ self.now) }
        ensures is_text { is_some result ≡ is_utf8 self.now }
    {
        std::str::from_utf8(self.as_slice()).ok()
    }
}
