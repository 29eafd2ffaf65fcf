//! What a step compares and writes of the reorganisations of what it moves.
ghost use Rattle.std.specs.Prelude.{◌≡◌, ◌+◌, ◌<◌, ◌^◌, ◌++◌, length, OnOk};
ghost use Rattle.drafts.specs.Calls.{ends, removals, move_reads, move_writes, step_reads, step_writes};
ghost use Rattle.drafts.specs.Publish.{found_in};

use crate::found::{bounds_of, record_of};
use crate::key::Key;
use crate::record::{Record, Reorg};
use byte_map::Bytes;
use schema_version::Move;
use std::alloc::{AllocError, Global};

/// The cursors of these pieces and the next ones, each at its piece's end.
fn push_ends(
    alloc: Global,
    out: &mut Vec<(Key, Option<Record>)>,
    element: u32,
    piece: u64,
    bounds: &[(Bytes, Bytes)],
) -> Result<(), AllocError>
    requires { piece + length bounds.now < 2 ^ 64 }
    ensures { OnOk result (out.new.items ≡ out.old.items ++ ends element piece bounds.now) }
{
    match bounds {
        [] => Ok(()),
        [first, rest @ ..] => {
            let cursor = first.1.clone()?;
            out.push((Key::cursor(element, piece), Some(Record::Cursor(cursor))))?;
            push_ends(alloc, out, element, piece + 1, rest)
        }
    }
}

/// The removals of their cursors.
fn push_removals(
    alloc: Global,
    out: &mut Vec<(Key, Option<Record>)>,
    element: u32,
    piece: u64,
    bounds: &[(Bytes, Bytes)],
) -> Result<(), AllocError>
    requires { piece + length bounds.now < 2 ^ 64 }
    ensures { OnOk result (out.new.items ≡ out.old.items ++ removals element piece bounds.now) }
{
    match bounds {
        [] => Ok(()),
        [_first, rest @ ..] => {
            out.push((Key::cursor(element, piece), None))?;
            push_removals(alloc, out, element, piece + 1, rest)
        }
    }
}

/// What a move compares: the reorganisation of its element, found or missing, and the ends of its
/// pieces if the element goes on.
fn push_move_reads(
    alloc: Global,
    out: &mut Vec<(Key, Option<Record>)>,
    found: &[Reorg],
    change: &Move,
) -> Result<(), AllocError>
    ensures { OnOk result (out.new.items ≡ out.old.items ++ move_reads (found_in found.now) change.now) }
{
    match change {
        Move::Enter { .. } => Ok(()),
        Move::Go { element, .. } => {
            out.push((Key::reorg(*element), record_of(found, *element)?))?;
            push_ends(alloc, out, *element, 0, bounds_of(found, *element))
        }
        Move::Turn { element } => {
            out.push((Key::reorg(*element), record_of(found, *element)?))?;
            Ok(())
        }
    }
}

/// What a move writes: it removes the reorganisation of its element, with all cursors.
fn push_move_writes(
    alloc: Global,
    out: &mut Vec<(Key, Option<Record>)>,
    found: &[Reorg],
    change: &Move,
) -> Result<(), AllocError>
    ensures { OnOk result (out.new.items ≡ out.old.items ++ move_writes (found_in found.now) change.now) }
{
    match change {
        Move::Enter { .. } => Ok(()),
        Move::Go { element, .. } | Move::Turn { element } => {
            out.push((Key::reorg(*element), None))?;
            push_removals(alloc, out, *element, 0, bounds_of(found, *element))
        }
    }
}

/// What a step compares, move by move.
pub(crate) fn push_step_reads(
    alloc: Global,
    out: &mut Vec<(Key, Option<Record>)>,
    found: &[Reorg],
    step: &[Move],
) -> Result<(), AllocError>
    ensures { OnOk result (out.new.items ≡ out.old.items ++ step_reads (found_in found.now) step.now) }
{
    match step {
        [] => Ok(()),
        [first, rest @ ..] => {
            push_move_reads(alloc, out, found, first)?;
            push_step_reads(alloc, out, found, rest)
        }
    }
}

/// What a step writes, move by move.
pub(crate) fn push_step_writes(
    alloc: Global,
    out: &mut Vec<(Key, Option<Record>)>,
    found: &[Reorg],
    step: &[Move],
) -> Result<(), AllocError>
    ensures { OnOk result (out.new.items ≡ out.old.items ++ step_writes (found_in found.now) step.now) }
{
    match step {
        [] => Ok(()),
        [first, rest @ ..] => {
            push_move_writes(alloc, out, found, first)?;
            push_step_writes(alloc, out, found, rest)
        }
    }
}
