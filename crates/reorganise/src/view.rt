//! The next items of a piece, as they were read.
ghost use Rattle.std.specs.Prelude.{◌≡◌};
ghost use Rattle.reorganise.specs.Pieces.{IsReading};

use crate::read::Reading;
use byte_map::{Bytes, KeyMap};
use schema_version::{ElementDef, Work};
use std::marker::Model;

/// The next items of a piece as they were read, to be prepared. `Progress::read_piece` and
/// `Progress::read_piece_to` alone make one.
#[derive(Drop)]
pub struct PieceView {
    pub(crate) inside: Reading,
}

impl Model for PieceView {
    ghost use Rattle.reorganise.specs.declared.read.Reading.{Reading};
    ghost use Rattle.reorganise.specs.contracts.read.Reading as reading;

    ghost Value = { Reading };

    ghost coded = { reading.the_row.coded };

    ghost use Rattle.reorganise.specs.Pieces.{IsReading};

    ghost view = { λ p. p.inside };

    ghost invariant = { λ p. IsReading p.inside };
}

impl PieceView {
    /// What is filled or cleared.
    pub fn element(&self) -> &ElementDef
        ensures { result.now ≡ self.now.element }
    {
        &self.inside.element
    }

    /// Whether it is filled or cleared.
    pub fn kind(&self) -> Work
        ensures { result ≡ self.now.kind }
    {
        self.inside.kind
    }

    /// The number of the piece, from 0.
    pub fn piece(&self) -> u32
        ensures { result ≡ self.now.piece }
    {
        self.inside.piece
    }

    /// The lower and the upper bound of the piece.
    pub fn bounds(&self) -> (&[u8], &[u8])
        ensures low { result.0.now ≡ self.now.low }
        ensures high { result.1.now ≡ self.now.high }
    {
        (self.inside.low.as_slice(), self.inside.high.as_slice())
    }

    /// The piece's cursor as it was read, and where it comes to.
    pub fn cursors(&self) -> (&[u8], &[u8])
        ensures old { result.0.now ≡ self.now.key_range.low }
        ensures new { result.1.now ≡ self.now.key_range.high }
    {
        (
            self.inside.key_range.low.as_slice(),
            self.inside.key_range.high.as_slice(),
        )
    }

    /// All pairs that were read: those from the old cursor to below the new one.
    pub fn pairs(&self) -> &KeyMap<Bytes>
        ensures { result.now ≡ self.now.key_range.pairs }
    {
        &self.inside.key_range.pairs
    }

    /// Tells what is known of everything that was read of a piece.
    pub fn read(&self)
        ensures { IsReading self.now }
    {
        let _inside = &self.inside;
    }

    pub(crate) fn into_reading(self) -> Reading
        ensures value { result ≡ self }
        ensures read { IsReading result }
    {
        self.inside
    }
}
