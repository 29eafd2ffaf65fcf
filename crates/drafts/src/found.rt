//! The reorganisations that were found for a step, and which of them it waits for.
ghost use Rattle.std.specs.Bool.{Decides};
ghost use Rattle.std.specs.Option.{option_copied};
ghost use Rattle.std.specs.Prelude.{◌≡◌, option_map, IfOk, MatchOption, Some};
ghost use Rattle.drafts.specs.Calls.{HasWork, bounds_in};
ghost use Rattle.drafts.specs.Publish.{found_in, IsReady, AreReady, Lacks, IsUnfinished};
ghost use Rattle.drafts.specs.Store.{OfReorg};

use crate::record::{Record, Reorg};
use byte_map::Bytes;
use schema_version::{Move, Schema, Work, needed_work};
use std::alloc::AllocError;

/// The reorganisation of an element among those that were found.
pub(crate) fn find_reorg(found: &[Reorg], number: u32) -> Option<&Reorg>
    ensures { option_copied result ≡ found_in found.now number }
{
    found.iter().find(|r| r.element.number == number)
}

/// The record of an element's reorganisation, if one was found.
pub(crate) fn record_of(found: &[Reorg], number: u32) -> Result<Option<Record>, AllocError>
    ensures { IfOk result (λ entry. entry ≡ option_map OfReorg (found_in found.now number)) }
{
    match find_reorg(found, number) {
        None => Ok(None),
        Some(reorg) => Ok(Some(Record::Reorg(reorg.clone()?))),
    }
}

/// The bounds of its pieces; none if none was found.
pub(crate) fn bounds_of(found: &[Reorg], number: u32) -> &[(Bytes, Bytes)]
    ensures { result.now ≡ bounds_in (found_in found.now number) }
{
    match find_reorg(found, number) {
        None => &[],
        Some(reorg) => reorg.bounds.as_slice(),
    }
}

/// Whether a reorganisation of this work was found.
fn has_work(found: Option<&Reorg>, work: Work) -> bool
    ensures { Decides result (HasWork (option_copied found.entry) (Some work)) }
{
    match found {
        None => false,
        Some(reorg) => reorg.work == work,
    }
}

/// The element that a move takes on, if it lacks what the move needs.
fn first_lacking(schema: &Schema, found: &[Reorg], change: &Move) -> Option<u32>
    ensures { MatchOption result (IsReady schema.now (found_in found.now) change.now) (λ number. Lacks schema.now (found_in found.now) change.now number) }
{
    let Move::Go { element, to } = change else {
        return None;
    };
    let def = schema.element(*element)?;
    let work = needed_work(&def.kind, *to)?;
    if has_work(find_reorg(found, *element), work) {
        None
    } else {
        Some(*element)
    }
}

/// The first element of a step that lacks what its move needs.
pub(crate) fn first_unfinished(schema: &Schema, found: &[Reorg], step: &[Move]) -> Option<u32>
    ensures { MatchOption result (AreReady schema.now (found_in found.now) step.now) (λ number. IsUnfinished schema.now (found_in found.now) step.now number) }
{
    match step {
        [] => None,
        [first, rest @ ..] => match first_lacking(schema, found, first) {
            Some(number) => Some(number),
            None => first_unfinished(schema, found, rest),
        },
    }
}
