//! The begin of a reorganisation in one piece.
ghost use Rattle.std.specs.Prelude.{◌≡◌, IfOk, IfErr};
ghost use Rattle.drafts.specs.Calls.{begin_draft};
ghost use Rattle.drafts.specs.Begin.{beginning, IsBegunBy, BeginRefusal};
ghost use Rattle.drafts.specs.Made.{IsControlOf};
ghost use Rattle.drafts.specs.declared.begin.BeginFault.TheVariants.{Memory};

use crate::newest::Newest;
use crate::record::Control;
use crate::reorg_records::{begin_reads, begin_writes};
use crate::wanted::{find_wanted, range_of};
use collections::List;
use schema_version::{ElementDef, Work};
use std::alloc::{AllocError, Global};
use thiserror::Error;

/// Why no reorganisation is drafted.
#[derive(Clone, Copy, Debug, PartialEq, Eq, Error)]
pub enum BeginFault {
    /// No live element has the number, or it wants neither a fill nor a clear.
    #[error("the element wants no reorganisation")]
    NotWanted,
    /// Out of memory.
    #[error("out of memory")]
    Memory,
}

impl From<AllocError> for BeginFault {
    ghost from_gives = { λ _ fault. fault ≡ Memory };

    fn from(_: AllocError) -> BeginFault {
        BeginFault::Memory
    }
}

/// The begin of this work.
fn begin_control(
    alloc: Global,
    newest: &Newest,
    element: &ElementDef,
    work: Work,
) -> Result<Control, AllocError>
    ensures { IfOk result (λ control. IsControlOf (begin_draft (beginning newest.now element.now work)) control) }
{
    let range = range_of(alloc, element, work)?;
    let mut bounds = Vec::new(alloc);
    bounds.push(range)?;
    let reads = begin_reads(alloc, newest, element.number)?;
    let writes = begin_writes(alloc, element, work, List::new(bounds))?;
    Ok(Control {
        reads: List::new(reads),
        writes: List::new(writes),
    })
}

/// Drafts the begin of the fill or the clear that an element wants, in one piece. The store applies
/// it if this is still the newest version, the one before is closed, and the element has no
/// reorganisation. Of the pairs it compares and writes none.
///
/// - `newest`: the newest version, as the store had its record.
/// - `number`: the number of the element.
///
/// The refusals, in their order: `NotWanted`, no live element has the number, or it wants neither a
/// fill nor a clear; `Memory`, only if `NotWanted` is not due.
pub fn draft_begin(alloc: Global, newest: &Newest, number: u32) -> Result<Control, BeginFault>
    ensures begun { IfOk result (λ control. IsBegunBy newest.now number control) }
    ensures refused { IfErr result (λ fault. BeginRefusal newest.now number fault) }
{
    let Some((element, work)) = find_wanted(newest, number) else {
        return Err(BeginFault::NotWanted);
    };
    Ok(begin_control(alloc, newest, element, work)?)
}
