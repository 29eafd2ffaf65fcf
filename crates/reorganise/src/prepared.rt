//! A piece that was read and prepared.
ghost use Rattle.std.specs.Prelude.{◌≡◌};
ghost use Rattle.reorganise.specs.Pieces.{IsReading};
ghost use Rattle.reorganise.specs.Batches.{expect_of, batch_for};

use byte_map::{Bytes, KeyMap};
use row_map::{Batch, Expect, KeyRange};
use schema_version::{ElementDef, Work};
use std::marker::Model;

/// A piece that was read and prepared: what it expects to find again, and what it then writes.
/// `prepare_piece` alone makes one, and it can grow as old as it likes. Contracts see it as what
/// was read.
pub struct PreparedPiece {
    pub(crate) element: ElementDef,
    pub(crate) kind: Work,
    pub(crate) piece: u32,
    pub(crate) low: Bytes,
    pub(crate) high: Bytes,
    pub(crate) expect: Expect,
    pub(crate) batch: Batch,
}

// By hand, so that a caller's proof sees one call and not each field's.
impl Drop for PreparedPiece {
    fn drop(self) {
        let PreparedPiece {
            element: _,
            kind: _,
            piece: _,
            low: _,
            high: _,
            expect: _,
            batch: _,
        } = self;
    }
}

impl Model for PreparedPiece {
    ghost use Rattle.reorganise.specs.declared.read.Reading.{Reading};
    ghost use Rattle.reorganise.specs.contracts.read.Reading as reading;

    ghost Value = { Reading };

    ghost coded = { reading.the_row.coded };

    ghost use Rattle.reorganise.specs.Batches.{key_range_of, IsPrepared};

    ghost view = { λ p. record { element = p.element; kind = p.kind; piece = p.piece; low = p.low; high = p.high; key_range = key_range_of p.expect.key_range } };

    ghost invariant = { λ p. IsPrepared p.element p.kind p.piece p.low p.high p.expect p.batch };
}

impl PreparedPiece {
    /// What is filled or cleared.
    pub fn element(&self) -> &ElementDef
        ensures { result.now ≡ self.now.element }
    {
        &self.element
    }

    /// Whether it is filled or cleared.
    pub fn kind(&self) -> Work
        ensures { result ≡ self.now.kind }
    {
        self.kind
    }

    /// The number of the piece, from 0.
    pub fn piece(&self) -> u32
        ensures { result ≡ self.now.piece }
    {
        self.piece
    }

    /// The lower and the upper bound of the piece.
    pub fn bounds(&self) -> (&[u8], &[u8])
        ensures low { result.0.now ≡ self.now.low }
        ensures high { result.1.now ≡ self.now.high }
    {
        (self.low.as_slice(), self.high.as_slice())
    }

    /// What it expects of the store: that the pairs from the old cursor to below the new one are
    /// just those that were read.
    pub fn expect(&self) -> &Expect
        ensures { result.now ≡ expect_of self.now.key_range }
    {
        &self.expect
    }

    /// What it writes.
    pub fn batch(&self) -> &Batch
        ensures { result.now ≡ batch_for self.now }
    {
        &self.batch
    }

    /// The range that was read.
    fn key_range(&self) -> &KeyRange
        ensures { result.now ≡ self.now.key_range }
    {
        match &self.expect.key_range {
            Some(key_range) => key_range,
            None => unreachable!(),
        }
    }

    /// The piece's cursor as it was read, and where it comes to.
    pub fn cursors(&self) -> (&[u8], &[u8])
        ensures old { result.0.now ≡ self.now.key_range.low }
        ensures new { result.1.now ≡ self.now.key_range.high }
    {
        let key_range = self.key_range();
        (key_range.low.as_slice(), key_range.high.as_slice())
    }

    /// All pairs that were read: those from the old cursor to below the new one.
    pub fn pairs(&self) -> &KeyMap<Bytes>
        ensures { result.now ≡ self.now.key_range.pairs }
    {
        &self.key_range().pairs
    }

    /// Tells what is known of every prepared piece.
    pub fn lemma_made(&self)
        ensures { IsReading self.now }
    {
        let _expect = &self.expect;
    }
}
