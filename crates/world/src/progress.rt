//! How far a begun reorganisation has come: its next piece, and how many items are left.
ghost use Rattle.std.specs.Prelude.{◌≡◌, ◌≤◌, ◌<◌, ◌^◌, length, option_map};
ghost use Rattle.std.specs.Option.{option_and_then};
ghost use Rattle.reorganise.specs.Left.{items_left, open_from};
ghost use Rattle.reorganise.specs.ScanRanges.{items, scan_range_of};
ghost use Rattle.replay.specs.Replay.{progress_of};
ghost use Rattle.world.specs.State.{facts_of};
ghost use Rattle.world.specs.inner.Left.{empties_in, empties_left};

use crate::world::World;
use reorganise::Span;
use row_map::RankedView;
use txn_store::Store;

/// The number of the first piece that has not ended.
fn first_open(pieces: &[Span]) -> Option<u32>
    requires { length pieces.now ≤ 64 }
    ensures { result ≡ open_from 0 pieces.now }
{
    let mut number = 0;
    for piece in pieces {
        if !piece.cursor.cmp(&piece.high).is_eq() {
            return Some(number);
        }
        number += 1;
    }
    None
}

/// How many pairs with an empty value are left in the pieces, from their cursors on.
fn count_left(store: &Store, pieces: &[Span]) -> usize
    requires { empties_left store.now pieces.now < 2 ^ 64 }
    ensures { result ≡ empties_left store.now pieces.now }
{
    let mut left = 0;
    for piece in pieces {
        left += store.count_empty(piece.cursor.as_slice(), piece.high.as_slice());
    }
    left
}

/// How many pairs with an empty value there are in the pieces, from their starts on.
fn count_all(store: &Store, pieces: &[Span]) -> usize
    requires { empties_in store.now pieces.now < 2 ^ 64 }
    ensures { result ≡ empties_in store.now pieces.now }
{
    let mut all = 0;
    for piece in pieces {
        all += store.count_empty(piece.low.as_slice(), piece.high.as_slice());
    }
    all
}

impl World {
    /// The number of the first piece of the begun reorganisation of an element that has not ended.
    /// None if all have, or if no reorganisation of the element has begun, or it is over. Never
    /// refused.
    ///
    /// - `element`: the number of the element.
    pub fn next_piece(&self, element: u32) -> Option<u32>
        ensures { result ≡ option_and_then (λ p. open_from 0 p.pieces) (progress_of (facts_of self.now).progress element) }
    {
        let progress = self.begun_of(element)?;
        let _len = self.store.len();
        first_open(progress.pieces.as_slice())
    }

    /// How many items are left of the begun reorganisation of an element: of those that are
    /// present, the ones from each piece's cursor to its end. They are counted, not walked over.
    /// None if no reorganisation of the element has begun, or it is over. Never refused.
    ///
    /// - `element`: the number of the element.
    pub fn items_left(&self, element: u32) -> Option<usize>
        ensures { result ≡ option_map (λ p. items_left p self.now.pairs) (progress_of (facts_of self.now).progress element) }
    {
        let progress = self.begun_of(element)?;
        let _len = self.store.len();
        Some(count_left(&self.store, progress.pieces.as_slice()))
    }

    /// How many items the begun reorganisation of an element has, of those that are present: the
    /// rows of a fill or of a column's clear, or the pairs of an index's clear. They are counted,
    /// not walked over. None if no reorganisation of the element has begun, or it is over. Never
    /// refused.
    ///
    /// - `element`: the number of the element.
    pub fn items_in_all(&self, element: u32) -> Option<usize>
        ensures { result ≡ option_map (λ p. length (items (scan_range_of p.element p.kind) self.now.pairs)) (progress_of (facts_of self.now).progress element) }
    {
        let progress = self.begun_of(element)?;
        let _len = self.store.len();
        Some(count_all(&self.store, progress.pieces.as_slice()))
    }
}
