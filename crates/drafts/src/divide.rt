//! The begin of a reorganisation in pieces whose bounds are given.
ghost use Rattle.std.specs.Prelude.{◌≡◌, IfOk, IfErr};
ghost use Rattle.reorganise.specs.ScanRanges.{scan_range_of, start, end};
ghost use Rattle.drafts.specs.Calls.{divide_draft};
ghost use Rattle.drafts.specs.Divide.{division, IsDividedBy, DivideRefusal};
ghost use Rattle.drafts.specs.Made.{IsControlOf};
ghost use Rattle.drafts.specs.declared.divide.DivideFault.TheVariants.{Memory};

use crate::bounds::{first_unfit, push_bounds};
use crate::newest::Newest;
use crate::record::Control;
use crate::reorg_records::{begin_reads, begin_writes};
use crate::wanted::{find_wanted, range_of};
use byte_map::Bytes;
use collections::List;
use schema_version::{ElementDef, Work};
use std::alloc::{AllocError, Global};
use thiserror::Error;

/// The most keys that are given: there are at most 64 pieces.
const MAX_KEYS: usize = 63;

/// Why no reorganisation in given pieces is drafted. Of several reasons the first in this order is
/// reported.
#[derive(Clone, Copy, Debug, PartialEq, Eq, Error)]
pub enum DivideFault {
    /// No live element has the number, or it wants neither a fill nor a clear.
    #[error("the element wants no reorganisation")]
    NotWanted,
    /// More than 63 keys are given.
    #[error("a reorganisation has at most 64 pieces")]
    TooManyPieces,
    /// No piece may begin at a key.
    #[error("no piece may begin at key {at}")]
    BadKey {
        /// The place of the first such key, from 0.
        at: usize,
    },
    /// Out of memory.
    #[error("out of memory")]
    Memory,
}

impl From<AllocError> for DivideFault {
    ghost from_gives = { λ _ fault. fault ≡ Memory };

    fn from(_: AllocError) -> DivideFault {
        DivideFault::Memory
    }
}

/// The begin of this work in the pieces that begin at these keys.
fn divide_control(
    alloc: Global,
    newest: &Newest,
    element: &ElementDef,
    work: Work,
    keys: &[Bytes],
    range: &(Bytes, Bytes),
) -> Result<Control, AllocError>
    requires low { range.now.0 ≡ start (scan_range_of element.now work) }
    requires high { range.now.1 ≡ end (scan_range_of element.now work) }
    ensures { IfOk result (λ control. IsControlOf (divide_draft (division newest.now element.now work keys.now)) control) }
{
    let mut bounds = Vec::new(alloc);
    push_bounds(alloc, &mut bounds, &range.0, keys, &range.1)?;
    let reads = begin_reads(alloc, newest, element.number)?;
    let writes = begin_writes(alloc, element, work, List::new(bounds))?;
    Ok(Control {
        reads: List::new(reads),
        writes: List::new(writes),
    })
}

/// Drafts the begin of the fill or the clear that an element wants, in pieces whose bounds are
/// given: for a table too large to be walked over. The first piece begins where the range of the
/// work begins, and each other one at a given key; each ends where the next one begins, the last
/// where the range ends. The store applies it as a draft of `draft_begin`.
///
/// - `newest`: the newest version, as the store had its record.
/// - `number`: the number of the element.
/// - `keys`: at most 63 keys, each above the one before: of rows of the element's table, as
///   `row_map::exists_key` makes them, or of pairs of the index if one is cleared. Whether such
///   rows or pairs are there is not asked.
///
/// The refusals, in their order: `NotWanted`; `TooManyPieces`; `BadKey`, with the place of the first
/// key that is none of a row or a pair of the work, or is not above the one before; `Memory`, only if
/// neither `NotWanted` nor `TooManyPieces` is due.
pub fn draft_divide(
    alloc: Global,
    newest: &Newest,
    number: u32,
    keys: &[Bytes],
) -> Result<Control, DivideFault>
    ensures divided { IfOk result (λ control. IsDividedBy newest.now number keys.now control) }
    ensures refused { IfErr result (λ fault. DivideRefusal newest.now number keys.now fault) }
{
    let Some((element, work)) = find_wanted(newest, number) else {
        return Err(DivideFault::NotWanted);
    };
    if keys.len() > MAX_KEYS {
        return Err(DivideFault::TooManyPieces);
    }
    let range = range_of(alloc, element, work)?;
    if let Some(at) = first_unfit(alloc, element, work, &range.0, &range.1, keys, 0)? {
        return Err(DivideFault::BadKey { at });
    }
    Ok(divide_control(alloc, newest, element, work, keys, &range)?)
}
