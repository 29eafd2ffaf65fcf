//! The act that is due.
ghost use Rattle.std.specs.Prelude.{IfOk, IfErr};
ghost use Rattle.layer_due.specs.Due.{IsDue, IsStuck, ComesFirst, FailsFirst};

use crate::ready::is_next_ready;
use crate::records::{Records, cursor_of};
use crate::search::{find_open, find_wanting};
use schema_version::Step;
use thiserror::Error;

/// What may be done next. Elements are given by number, pieces from 0.
#[derive(Clone, Copy, Debug, PartialEq, Eq)]
pub enum Act {
    /// The fill or the clear that the element wants may begin: `draft_begin`.
    Begin {
        /// The number of the element.
        element: u32,
    },
    /// The version before the newest may be closed, for which a begin waits: `draft_close`.
    Close,
    /// The first of the steps may be published: `draft_publish`.
    Publish,
    /// A piece of the element's fill or clear may be read and worked on: `draft_piece`.
    Work {
        /// The number of the element.
        element: u32,
        /// The number of the piece.
        piece: u64,
    },
    /// No step is left, no element wants a fill or a clear that has not begun, and all that have
    /// begun have ended.
    Nothing,
}

/// Why no act is given.
#[derive(Clone, Copy, Debug, PartialEq, Eq, Error)]
pub enum DueFault {
    /// The piece that comes first has no cursor: the records were not read at one moment, so none
    /// of them is worked on.
    #[error("the piece {piece} of the element {element} has no cursor")]
    NoCursor {
        /// The number of the element.
        element: u32,
        /// The number of the piece.
        piece: u64,
    },
    /// The first step needs a fill or a clear that no element wants: it is no next step of this
    /// version.
    #[error("the step needs what no element wants")]
    NotReady,
}

/// What is due: a begin first, since its pieces can be worked on from then on, and before it the
/// close that it waits for; then the first of the steps, if all that it needs has ended; then a
/// piece. Of several begins that of the element of the lowest number is given, and of several pieces
/// the first that has not ended of the first reorganisation that has one. It changes nothing, takes
/// no memory, and needs no plan to have been kept: any server may do the next act, and one finishes
/// what another began.
///
/// - `records`: the control records, as they were found at one moment of the store.
/// - `steps`: what is left of a plan for the newest version, the next step first; none if nothing
///   more is planned.
///
/// Refused by the names of `DueFault`: `NoCursor` if the piece that would be given has no cursor among
/// the records, whatever the others have; `NotReady` if nothing but steps is left, and the first one
/// needs a fill or a clear that no element wants.
pub fn due(records: &Records, steps: &[Step]) -> Result<Act, DueFault>
    ensures due { IfOk result (λ act. IsDue records.now steps.now act) }
    ensures first { IfOk result (λ act. ComesFirst records.now act) }
    ensures refused { IfErr result (λ fault. IsStuck records.now steps.now fault) }
    ensures failed { IfErr result (λ fault. FailsFirst records.now fault) }
{
    if let Some(element) = find_wanting(records) {
        if records.previous_is_open {
            return Ok(Act::Close);
        }
        return Ok(Act::Begin { element });
    }
    if is_next_ready(records, steps) {
        return Ok(Act::Publish);
    }
    match find_open(records) {
        Some((element, piece)) => {
            match cursor_of(records.cursors.as_slice(), element, piece) {
                Some(_) => Ok(Act::Work { element, piece }),
                None => Err(DueFault::NoCursor { element, piece }),
            }
        }
        None => {
            if steps.is_empty() {
                Ok(Act::Nothing)
            } else {
                Err(DueFault::NotReady)
            }
        }
    }
}
