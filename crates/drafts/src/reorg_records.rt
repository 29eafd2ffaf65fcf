//! The records that a begin puts.
ghost use Rattle.std.specs.Prelude.{◌≡◌, ◌+◌, ◌<◌, ◌^◌, ◌++◌, length, IfOk, OnOk};
ghost use Rattle.drafts.specs.Begin.{begin_reads as reads_of, begin_writes as writes_of, starts_at};

use crate::key::Key;
use crate::newest::{Newest, newest_reads};
use crate::record::{Record, Reorg};
use byte_map::Bytes;
use collections::List;
use schema_version::{ElementDef, Work};
use std::alloc::{AllocError, Global};

/// What compares that this version is open alone, and the element has no reorganisation.
pub(crate) fn begin_reads(
    alloc: Global,
    newest: &Newest,
    element: u32,
) -> Result<Vec<(Key, Option<Record>)>, AllocError>
    ensures { IfOk result (λ points. points.items ≡ reads_of newest.now element) }
{
    let mut out = newest_reads(alloc, newest)?;
    out.push((Key::version(u64::from(newest.before)), None))?;
    out.push((Key::reorg(element), None))?;
    Ok(out)
}

/// The cursors of these pieces and the next ones, each at its piece's lower bound.
fn push_starts(
    alloc: Global,
    out: &mut Vec<(Key, Option<Record>)>,
    element: u32,
    piece: u64,
    bounds: &[(Bytes, Bytes)],
) -> Result<(), AllocError>
    requires { piece + length bounds.now < 2 ^ 64 }
    ensures { OnOk result (out.new.items ≡ out.old.items ++ starts_at element piece bounds.now) }
{
    match bounds {
        [] => Ok(()),
        [first, rest @ ..] => {
            let cursor = first.0.clone()?;
            out.push((Key::cursor(element, piece), Some(Record::Cursor(cursor))))?;
            push_starts(alloc, out, element, piece + 1, rest)
        }
    }
}

/// The record of a reorganisation in pieces of these bounds, and their cursors.
pub(crate) fn begin_writes(
    alloc: Global,
    element: &ElementDef,
    work: Work,
    bounds: List<(Bytes, Bytes)>,
) -> Result<Vec<(Key, Option<Record>)>, AllocError>
    ensures { IfOk result (λ points. points.items ≡ writes_of element.now work bounds) }
{
    let reorg = Reorg {
        element: element.clone()?,
        work,
        bounds: bounds.clone()?,
    };
    let mut out = Vec::new(alloc);
    out.push((Key::reorg(element.number), Some(Record::Reorg(reorg))))?;
    push_starts(alloc, &mut out, element.number, 0, bounds.as_slice())?;
    Ok(out)
}
