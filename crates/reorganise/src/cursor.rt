//! How a reorganisation goes on: a cursor that moves, which prepared pieces are its own, and
//! whether it is done.
ghost use Rattle.std.specs.Bool.{Decides};
ghost use Rattle.std.specs.Option.{option_copied};
ghost use Rattle.std.specs.Prelude.{◌≡◌, MatchOption, slice_get, true};
ghost use Rattle.reorganise.specs.declared.work.Span.{Span as SpanOf};
ghost use Rattle.reorganise.specs.Laws.{with_cursor};
ghost use Rattle.reorganise.specs.Cursor.{come_on, IsSpanOf};
ghost use Rattle.reorganise.specs.Pieces.{are_ended};

use crate::prepared::PreparedPiece;
use crate::work::{Progress, Span};
use byte_map::Bytes;
use collections::List;
use schema_version::Work;
use std::alloc::Global;

/// The pieces, with the cursor of the one of this number moved.
fn with_moved(mut pieces: Vec<Span>, piece: u32, cursor: Bytes) -> Vec<Span>
    ensures { result.items ≡ with_cursor piece cursor pieces.items }
{
    let place = piece as usize;
    if place >= pieces.len() {
        return pieces;
    }
    pieces[place].cursor = cursor;
    pieces
}

/// Whether two keys are the same.
pub(crate) fn is_key(one: &[u8], other: &[u8]) -> bool
    ensures { Decides result (one.now ≡ other.now) }
{
    one == other
}

impl Progress {
    /// Moves the cursor of the piece of this number to `cursor`, in place. If there is no such
    /// piece, no cursor is moved. It takes no memory, and is never refused.
    pub fn move_cursor(&mut self, alloc: Global, piece: u32, cursor: Bytes)
        ensures { self.new ≡ come_on piece cursor self.old }
    {
        let pieces = std::mem::replace(&mut self.pieces, List::new(Vec::new(alloc)));
        self.pieces = List::new(with_moved(pieces.into_vec(), piece, cursor));
    }

    /// Whether this is what it does, and every piece has ended.
    pub fn is_done(&self, kind: Work) -> bool
        ensures { Decides result ((self.now.kind ≡ kind) × (are_ended self.now.pieces ≡ true)) }
    {
        self.kind == kind && self.finished()
    }

    /// The piece of this number, counted from 0.
    fn piece(&self, piece: u32) -> Option<&Span>
        ensures { option_copied result ≡ slice_get self.now.pieces piece }
    {
        self.pieces.as_slice().get(piece as usize)
    }

    /// The piece that was prepared, if it is one of this reorganisation: of the same definition,
    /// fill or clear, number and bounds. Its cursor may have moved since.
    pub fn span_of(&self, prepared: &PreparedPiece) -> Option<&Span>
        ensures { MatchOption result ((span : SpanOf) → ¬ (IsSpanOf self.now prepared.now span)) (λ span. IsSpanOf self.now prepared.now span.now) }
    {
        if !prepared.element().is_same(&self.element) || prepared.kind() != self.kind {
            return None;
        }
        let span = self.piece(prepared.piece())?;
        let (low, high) = prepared.bounds();
        if !is_key(low, span.low.as_slice()) || !is_key(high, span.high.as_slice()) {
            return None;
        }
        Some(span)
    }
}
