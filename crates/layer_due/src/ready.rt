//! Whether a step may be published.
ghost use Rattle.std.specs.Bool.{Decides};
ghost use Rattle.std.specs.Option.{option_copied};
ghost use Rattle.std.specs.Prelude.{Some};
ghost use Rattle.drafts.specs.Calls.{HasWork};
ghost use Rattle.drafts.specs.Publish.{found_in, IsReady};
ghost use Rattle.layer_due.specs.Due.{HasEnded, AreReady, IsNextReady};

use crate::records::{Records, open_piece, reorg_of};
use drafts::Reorg;
use schema_version::{Move, Step, Work, needed_work};

// `drafts` has the same private function.
/// Whether this work was found.
fn has_work(found: Option<&Reorg>, work: Work) -> bool
    ensures { Decides result (HasWork (option_copied found.entry) (Some work)) }
{
    match found {
        None => false,
        Some(reorg) => reorg.work == work,
    }
}

/// Whether the fill or the clear that a move needs was found, if it needs one.
fn has_begun(records: &Records, change: &Move) -> bool
    ensures { Decides result (IsReady records.now.newest.schema (found_in records.now.reorgs) change.now) }
{
    let Move::Go { element, to } = change else {
        return true;
    };
    let Some(def) = records.newest.schema.get().element(*element) else {
        return true;
    };
    let Some(work) = needed_work(&def.kind, *to) else {
        return true;
    };
    has_work(reorg_of(records.reorgs.as_slice(), *element), work)
}

/// Whether nothing is left of the reorganisation of the element that a move takes on.
fn has_ended(records: &Records, change: &Move) -> bool
    ensures { Decides result (HasEnded records.now change.now) }
{
    match change {
        Move::Go { element, .. } => open_piece(records, *element).is_none(),
        Move::Enter { .. } | Move::Turn { .. } => true,
    }
}

/// Whether all that a step needs has ended.
fn are_ready(records: &Records, step: &[Move]) -> bool
    ensures { Decides result (AreReady records.now step.now) }
{
    match step {
        [] => true,
        [first, rest @ ..] => {
            has_begun(records, first) && has_ended(records, first) && are_ready(records, rest)
        }
    }
}

/// Whether a step is left, and the first one may be published.
pub(crate) fn is_next_ready(records: &Records, steps: &[Step]) -> bool
    ensures { Decides result (IsNextReady records.now steps.now) }
{
    match steps {
        [] => false,
        [first, ..] => are_ready(records, first.as_slice()),
    }
}
