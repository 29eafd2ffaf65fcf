//! The control records that were found.
ghost use Rattle.std.specs.Option.{option_copied};
ghost use Rattle.std.specs.Prelude.{◌≡◌, ◌+◌, ◌<◌, ◌^◌, length, option_map};
ghost use Rattle.drafts.specs.Publish.{found_in};
ghost use Rattle.layer_due.specs.Records.{Cursor as PlainCursor, cursor_in, first_open as first_open_of, is_at, is_of, open_piece as open_piece_of};

use byte_map::Bytes;
use collections::List;
use drafts::{Newest, Reorg};

/// A cursor that was found.
pub struct Cursor {
    /// The number of the element whose fill or clear has the piece.
    pub element: u32,
    /// The number of the piece, from 0.
    pub piece: u64,
    /// The key of the store from which on the work is still to be done.
    pub key: Bytes,
}

// By hand, so that a caller's proof sees one call and not each field's.
impl Drop for Cursor {
    fn drop(self) {
        let Cursor {
            element: _,
            piece: _,
            key: _,
        } = self;
    }
}

/// The control records that were found, all at one moment of the store.
pub struct Records {
    /// The newest version.
    pub newest: Newest,
    /// Whether the version before it has a record, so that transactions under it are still applied.
    pub previous_is_open: bool,
    /// All reorganisations that have begun.
    pub reorgs: List<Reorg>,
    /// The cursors of all their pieces.
    pub cursors: List<Cursor>,
}

// By hand, so that a caller's proof sees one call and not each field's.
impl Drop for Records {
    fn drop(self) {
        let Records {
            newest: _,
            previous_is_open: _,
            reorgs: _,
            cursors: _,
        } = self;
    }
}

/// The reorganisation of an element among those that were found.
pub(crate) fn reorg_of(reorgs: &[Reorg], number: u32) -> Option<&Reorg>
    ensures { option_copied result ≡ found_in reorgs.now number }
{
    reorgs.iter().find(|r| r.element.number == number)
}

fn is_cursor_of(cursor: &Cursor, element: u32, piece: u64) -> bool
    ensures { result ≡ is_of element piece cursor.now }
{
    cursor.element == element && cursor.piece == piece
}

/// The cursor of a piece among those that were found.
pub(crate) fn cursor_of(cursors: &[Cursor], element: u32, piece: u64) -> Option<&Cursor>
    ensures { option_map (λ (c : PlainCursor). c.key) (option_copied result) ≡ cursor_in cursors.now element piece }
{
    cursors.iter().find(|c| is_cursor_of(*c, element, piece))
}

/// Whether a piece's cursor was found at its end.
fn is_at_end(cursors: &[Cursor], element: u32, piece: u64, high: &Bytes) -> bool
    ensures { result ≡ is_at (cursor_in cursors.now element piece) high.now }
{
    match cursor_of(cursors, element, piece) {
        None => false,
        Some(cursor) => cursor.key.compare(high.as_slice()).is_eq(),
    }
}

/// The first of these pieces and the next ones whose cursor was not found at its end.
pub(crate) fn first_open(
    cursors: &[Cursor],
    element: u32,
    piece: u64,
    bounds: &[(Bytes, Bytes)],
) -> Option<u64>
    requires { piece + length bounds.now < 2 ^ 64 }
    ensures { result ≡ first_open_of cursors.now element piece bounds.now }
{
    match bounds {
        [] => None,
        [first, rest @ ..] => {
            if is_at_end(cursors, element, piece, &first.1) {
                first_open(cursors, element, piece + 1, rest)
            } else {
                Some(piece)
            }
        }
    }
}

/// The first piece of an element's reorganisation that has not ended, if one was found.
pub(crate) fn open_piece(records: &Records, number: u32) -> Option<u64>
    ensures { result ≡ open_piece_of records.now number }
{
    let reorg = reorg_of(records.reorgs.as_slice(), number)?;
    first_open(
        records.cursors.as_slice(),
        number,
        0,
        reorg.bounds.as_slice(),
    )
}
