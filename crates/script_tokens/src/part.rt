//! Bytes of a line.
ghost use Rattle.std.specs.Prelude.{◌≡◌};

use std::marker::Model;

/// Bytes of a line, which contracts see as their list.
#[derive(Drop)]
pub struct Part<'a> {
    bytes: &'a [u8],
}

impl<'a> Model for Part<'a> {
    ghost use Rattle.std.specs.Prelude.{List, ℕ};

    ghost Value = { List ℕ };

    ghost view = { λ p. p.bytes.now };
}

impl<'a> Part<'a> {
    /// These bytes of a line.
    pub(crate) fn new(bytes: &'a [u8]) -> Part<'a>
        ensures { result ≡ bytes.entry.now }
    {
        Part { bytes }
    }

    /// The bytes, for as long as the line is borrowed.
    pub fn as_slice(&self) -> &'a [u8]
        ensures { result.now ≡ self.now }
    {
        self.bytes
    }
}
