//! The close of the version before the newest.
ghost use Rattle.std.specs.Prelude.{IfOk};
ghost use Rattle.drafts.specs.Calls.{close_draft};
ghost use Rattle.drafts.specs.Made.{IsControlOf};

use crate::key::Key;
use crate::newest::{Newest, newest_reads};
use crate::record::Control;
use collections::List;
use std::alloc::{AllocError, Global};

/// Drafts the close of the version before the newest: from then on no transaction under it is
/// applied, and a reorganisation can begin. It can be done at any time: a server that still has
/// that version meets a conflict, and reads again. The store applies it if this is still the newest
/// version. Of the pairs it compares and writes none.
///
/// - `newest`: the newest version, as the store had its record.
///
/// Refused only when out of memory.
pub fn draft_close(alloc: Global, newest: &Newest) -> Result<Control, AllocError>
    ensures { IfOk result (λ control. IsControlOf (close_draft newest.now) control) }
{
    let reads = newest_reads(alloc, newest)?;
    let mut writes = Vec::new(alloc);
    writes.push((Key::version(u64::from(newest.before)), None))?;
    Ok(Control {
        reads: List::new(reads),
        writes: List::new(writes),
    })
}
