//! What an element wants to have done, and the range of keys that this goes through.
ghost use Rattle.std.specs.Prelude.{◌≡◌, IfOk, MatchOption};
ghost use Rattle.reorganise.specs.ScanRanges.{scan_range_of, start, end};
ghost use Rattle.drafts.specs.Begin.{IsWanted, WantsNothing};

use crate::newest::Newest;
use byte_map::{Bytes, KeyMap};
use reorganise::Progress;
use schema_version::{ElementDef, Work};
use std::alloc::{AllocError, Global};

/// The element of this number, and the fill or the clear that it wants.
pub(crate) fn find_wanted(newest: &Newest, number: u32) -> Option<(&ElementDef, Work)>
    ensures { MatchOption result (WantsNothing newest.now number) (λ found. IsWanted newest.now number found.0.now found.1) }
{
    newest.schema.get().lemma_known();
    let element = newest.schema.get().element(number)?;
    let work = element.wanted_work()?;
    Some((element, work))
}

/// The range that a fill or a clear goes through.
pub(crate) fn range_of(
    alloc: Global,
    element: &ElementDef,
    work: Work,
) -> Result<(Bytes, Bytes), AllocError>
    ensures low { IfOk result (λ range. range.0 ≡ start (scan_range_of element.now work)) }
    ensures high { IfOk result (λ range. range.1 ≡ end (scan_range_of element.now work)) }
{
    let none: KeyMap<Bytes> = KeyMap::new(alloc);
    let progress = Progress::begin(alloc, element.clone()?, work, &none, 1)?;
    let piece = &progress.pieces.as_slice()[0];
    Ok((piece.low.clone()?, piece.high.clone()?))
}
