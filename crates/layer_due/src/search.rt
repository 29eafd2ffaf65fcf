//! The elements, searched for what is due.
ghost use Rattle.std.specs.Bool.{Decides};
ghost use Rattle.std.specs.Prelude.{◌≡◌, Some, MatchOption};
ghost use Rattle.layer_due.specs.Records.{open_piece as open_piece_of};
ghost use Rattle.layer_due.specs.Due.{IsWanting, NoneWants, NoneOpen, IsFirstWanting, IsFirstOpen};

use crate::records::{Records, open_piece, reorg_of};

/// Whether an element wants a fill or a clear of which none has begun.
fn is_wanting(records: &Records, number: u32) -> bool
    ensures { Decides result (IsWanting records.now number) }
{
    let Some(element) = records.newest.schema.get().element(number) else {
        return false;
    };
    element.wanted_work().is_some() && reorg_of(records.reorgs.as_slice(), number).is_none()
}

/// The element of the lowest number that wants a fill or a clear of which none has begun, if there is
/// one.
pub(crate) fn find_wanting(records: &Records) -> Option<u32>
    ensures { MatchOption result (NoneWants records.now) (λ number. IsWanting records.now number × IsFirstWanting records.now number) }
{
    let schema = records.newest.schema.get();
    schema.lemma_known();
    for element in schema.elements() {
        if is_wanting(records, element.number) {
            return Some(element.number);
        }
    }
    None
}

/// The piece that has not ended of the first reorganisation that has one, with its element.
pub(crate) fn find_open(records: &Records) -> Option<(u32, u64)>
    ensures { MatchOption result (NoneOpen records.now) (λ found. (open_piece_of records.now found.0 ≡ Some found.1) × IsFirstOpen records.now found.0) }
{
    for reorg in records.reorgs.as_slice() {
        let number = reorg.element.number;
        if let Some(piece) = open_piece(records, number) {
            return Some((number, piece));
        }
    }
    None
}
