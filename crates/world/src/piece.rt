//! The pieces of a begun reorganisation.
ghost use Rattle.std.specs.Bool.{Decides};
ghost use Rattle.std.specs.Prelude.{◌≡◌, ◌≤◌, ℕ, IfOk, IfErr, OnOk, MatchOption};
ghost use mathlib.Core.List.{map as each};
ghost use Rattle.collections.specs.Refusal.{IsRefusal};
ghost use Rattle.row_map.specs.Rows.{Bytes as Key};
ghost use Rattle.replay.specs.Replay.{moved_to};
ghost use Rattle.world.specs.declared.piece.PieceFault.TheVariants.{Memory};
ghost use Rattle.world.specs.declared.piece.ReadFault.TheVariants.{View as ViewOf};
ghost use Rattle.world.specs.Piece.{standing_at, piece_standing, piece_standing_at, ReadStep, CanComeTo, IsReadAsFar, PieceStep, PieceAt, PieceCondition, IsCurrent, piece_rank};
ghost use Rattle.world.specs.State.{facts_of};
ghost use Rattle.world.specs.Faults.{piece_reported};
ghost use Rattle.world.specs.inner.Cursors.{cursor_of};

use crate::entry::PieceDone;
use crate::world::World;
use byte_map::Bytes;
use lease::MAX_MOMENT;
use reorganise::{PieceView, PreparedPiece, Progress, ViewFault, Work};
use replay::{What, lemma_pieces_keep};
use std::alloc::{AllocError, Global};
use thiserror::Error;
use txn_store::SetFault;

/// Why a piece was not read. Of several reasons the first in this order is reported.
#[derive(Clone, Copy, Debug, PartialEq, Eq, Error)]
pub enum ReadFault {
    /// No reorganisation of the element has begun, or it is over.
    #[error("no reorganisation of the element has begun")]
    NotWanted,
    /// The piece can't be read.
    #[error("{0}")]
    View(ViewFault),
}

impl From<ViewFault> for ReadFault {
    ghost from_gives = { λ reported fault. fault ≡ ViewOf reported };

    fn from(reported: ViewFault) -> ReadFault {
        ReadFault::View(reported)
    }
}

/// Why a piece was not committed. Of several reasons the first in this order is reported.
#[derive(Debug, Drop, Error)]
pub enum PieceFault {
    /// The moment that counts is above 2^62.
    #[error("the moment is above 2^62")]
    MomentTooLarge,
    /// No reorganisation of the element has begun, or it is over.
    #[error("no reorganisation of the element has begun")]
    NotWanted,
    /// The element's definition, the work, the piece's number or its bounds are not those of the
    /// reorganisation.
    #[error("the piece is not one of the element's reorganisation")]
    WrongElement,
    /// The piece's cursor is no longer where it was read.
    #[error("the piece has moved since it was read")]
    Moved {
        /// Where the piece's cursor is.
        cursor: Bytes,
    },
    /// A pair of the range is no longer what was read.
    #[error("a pair changed since it was read")]
    Conflict {
        /// The least key whose present pair is not the expected one.
        key: Bytes,
    },
    /// Out of memory, which may come in place of Moved and of Conflict.
    #[error("out of memory")]
    Memory,
}

impl From<AllocError> for PieceFault {
    ghost from_gives = { λ _ fault. fault ≡ Memory };

    fn from(_: AllocError) -> PieceFault {
        PieceFault::Memory
    }
}

impl From<SetFault> for PieceFault {
    ghost from_gives = { λ reported fault. fault ≡ piece_reported reported };

    fn from(reported: SetFault) -> PieceFault {
        match reported {
            SetFault::Conflict { key } => PieceFault::Conflict { key },
            SetFault::Memory => PieceFault::Memory,
        }
    }
}

/// The bytes, as an owner has them.
fn copy_bytes(alloc: Global, bytes: &[u8]) -> Result<Bytes, AllocError>
    ensures { IfOk result (λ copy. copy ≡ bytes.now) }
{
    Bytes::from_slice(alloc, bytes)
}

/// The work of a reorganisation, and whether its piece of this number has ended.
fn standing_of(progress: &Progress, piece: u32) -> Option<(Work, bool)>
    ensures { result ≡ piece_standing progress.now piece }
{
    let span = progress.pieces.as_slice().get(piece as usize)?;
    Some((progress.kind, span.cursor.cmp(&span.high).is_eq()))
}

/// A further owner of the cursor, if the reorganisation is the one of this element.
fn cursor_for(progress: &Progress, number: u32, cursor: &Bytes) -> Result<Option<Bytes>, AllocError>
    ensures { IfOk result (λ spare. spare ≡ cursor_of number cursor.now progress.now) }
{
    if progress.element.number == number {
        Ok(Some(cursor.clone()?))
    } else {
        Ok(None)
    }
}

/// What `move_cursors` is to lay: for each reorganisation a cursor, if it is of this element.
fn cursors_for(
    alloc: Global,
    begun: &[Progress],
    number: u32,
    cursor: &Bytes,
) -> Result<Vec<Option<Bytes>>, AllocError>
    ensures { IfOk result (λ spare. spare.items ≡ each (cursor_of number cursor.now) begun.now) }
{
    let mut spare = Vec::new(alloc);
    for progress in begun {
        spare.push(cursor_for(progress, number, cursor)?)?;
    }
    Ok(spare)
}

/// Moves a cursor, if one was laid aside for this reorganisation.
fn move_one(alloc: Global, progress: &mut Progress, piece: u32, given: Option<Bytes>)
    ensures { (number : ℕ) (cursor : Key) → given ≡ cursor_of number cursor progress.old → progress.new ≡ moved_to number piece cursor progress.old }
{
    if let Some(cursor) = given {
        progress.move_cursor(alloc, piece, cursor);
    }
}

/// Moves the cursors in place, when nothing can be refused any more.
fn move_cursors(alloc: Global, begun: &mut [Progress], piece: u32, mut spare: Vec<Option<Bytes>>)
    ensures { (number : ℕ) (cursor : Key) → spare.items ≡ each (cursor_of number cursor) begun.old → begun.new ≡ each (moved_to number piece cursor) begun.old }
{
    let Some((last, front)) = begun.split_last_mut() else {
        return;
    };
    let Some(given) = spare.pop() else {
        return;
    };
    move_one(alloc, last, piece, given);
    move_cursors(alloc, front, piece, spare);
}

/// Whether two keys are the same.
fn is_key(one: &[u8], other: &[u8]) -> bool
    ensures { Decides result (one.now ≡ other.now) }
{
    one == other
}

impl World {
    /// How the begun reorganisation of an element stands: what it does, the number of its pieces,
    /// and whether all of them have ended. None if none has begun, or it is over.
    pub fn progress(&self, element: u32) -> Option<(Work, usize, bool)>
        ensures { result ≡ standing_at (facts_of self.now) element }
    {
        let progress = self.begun_of(element)?;
        Some((progress.kind, progress.pieces.len(), progress.finished()))
    }

    /// How one piece of the begun reorganisation of an element stands: what the reorganisation
    /// does, and whether the piece has ended. None if none has begun, if it is over, or if it has
    /// no such piece.
    ///
    /// - `element`: the number of the element whose reorganisation it is.
    /// - `piece`: the number of the piece, from 0.
    pub fn piece_progress(&self, element: u32, piece: u32) -> Option<(Work, bool)>
        ensures { result ≡ piece_standing_at (facts_of self.now) element piece }
    {
        match self.begun_of(element) {
            Some(progress) => standing_of(progress, piece),
            None => None,
        }
    }

    /// Reads the next items of a piece, to be prepared with `prepare_piece`.
    ///
    /// - `element`: the number of the element whose reorganisation it is.
    /// - `piece`: the number of the piece, from 0.
    /// - `limit`: how many items, 1 to 1,000.
    ///
    /// Refused in this order: `NotWanted` if no reorganisation of the element has begun; `View`
    /// with what `Progress::read_piece` refuses, out of memory last.
    pub fn read_piece(
        &self,
        alloc: Global,
        element: u32,
        piece: u32,
        limit: u32,
    ) -> Result<PieceView, ReadFault>
        ensures { ReadStep self.now element piece limit result }
    {
        let Some(progress) = self.begun_of(element) else {
            return Err(ReadFault::NotWanted);
        };
        Ok(progress.read_piece(alloc, &self.store, piece, limit)?)
    }

    /// Reads the items of a piece as far as a given key, as another World did that was opened alike:
    /// from the piece's cursor to below that key. None if no reorganisation of the element has
    /// begun, if it has no such piece, or if the piece can't come to that key.
    ///
    /// A piece can come to any key that is not before its cursor and not after its upper bound, and
    /// that is this bound or the key of an item, whether or not such an item is present.
    ///
    /// - `element`: the number of the element whose reorganisation it is.
    /// - `piece`: the number of the piece, from 0.
    /// - `to`: the key before which the reading ends.
    ///
    /// Refused only when out of memory.
    pub fn read_piece_to(
        &self,
        alloc: Global,
        element: u32,
        piece: u32,
        to: &Bytes,
    ) -> Result<Option<PieceView>, AllocError>
        ensures { IfOk result (λ found. MatchOption found (CanComeTo self.now element piece to.now → ⊥) (λ read. IsReadAsFar self.now element piece to.now read)) }
    {
        let Some(progress) = self.begun_of(element) else {
            return Ok(None);
        };
        progress.read_piece_to(alloc, &self.store, piece, to)
    }

    /// Commits a prepared piece: its batch is written, and its cursor comes on.
    ///
    /// The moment that counts is the greater of `moment` and the moment of the last entry. Refused
    /// in this order, and then nothing changes and the prepared piece comes back: `MomentTooLarge`
    /// if the moment that counts is above 2^62; `NotWanted` if no reorganisation of the element has
    /// begun; `WrongElement` if the element's definition, the work, the piece's number or its
    /// bounds are not those of the reorganisation; `Moved` with the piece's cursor, if that is
    /// not where it was read; `Conflict` with the least key of the range whose pair is not what was
    /// read; `Memory`, which may come in place of Moved and of Conflict.
    pub fn commit_piece(
        &mut self,
        alloc: Global,
        moment: u64,
        prepared: PreparedPiece,
    ) -> Result<PieceDone, (PieceFault, PreparedPiece)>
        ensures step { PieceStep self.old moment prepared result self.new }
    {
        let now = self.effective_moment(moment);
        if let Err(fault) = self.check_current(now, &prepared) {
            return Err((fault, prepared));
        }
        match self.move_on(alloc, now, &prepared) {
            Ok(done) => Ok(done),
            Err(fault) => Err((fault, prepared)),
        }
    }

    // Whether a piece is one of its element's reorganisation as it stands.
    fn check_current(&self, now: u64, prepared: &PreparedPiece) -> Result<(), PieceFault>
        ensures current { OnOk result (IsCurrent (facts_of self.now) now prepared.now) }
        ensures refused { IfErr result (λ fault. IsRefusal piece_rank (PieceCondition self.now now prepared.now) Memory fault) }
    {
        if now > MAX_MOMENT {
            return Err(PieceFault::MomentTooLarge);
        }
        let Some(progress) = self.begun_of(prepared.element().number) else {
            return Err(PieceFault::NotWanted);
        };
        let Some(span) = progress.span_of(prepared) else {
            return Err(PieceFault::WrongElement);
        };
        if !is_key(span.cursor.as_slice(), prepared.cursors().0) {
            let cursor = span.cursor.clone()?;
            return Err(PieceFault::Moved { cursor });
        }
        Ok(())
    }

    // The piece is written, if the store agrees.
    fn move_on(
        &mut self,
        alloc: Global,
        now: u64,
        prepared: &PreparedPiece,
    ) -> Result<PieceDone, PieceFault>
        requires later { (facts_of self.old).moment ≤ now }
        requires current { IsCurrent (facts_of self.old) now prepared.now }
        ensures step { PieceAt self.old now prepared.now result self.new }
    {
        lemma_pieces_keep();
        prepared.lemma_made();
        let element = prepared.element().number;
        let piece = prepared.piece();
        let cursor = copy_bytes(alloc, prepared.cursors().1)?;
        let ended = is_key(cursor.as_slice(), prepared.bounds().1);
        let spare = cursors_for(alloc, self.begun.as_slice(), element, &cursor)?;
        let what = What::Piece {
            element,
            piece,
            cursor,
        };
        let draft = self.log.make_ready(alloc, now, what)?;
        self.store
            .test_and_set(alloc, prepared.expect(), prepared.batch())?;
        move_cursors(alloc, self.begun.as_mut_slice(), piece, spare);
        let receipt = self.log.enter(draft);
        Ok(PieceDone { receipt, ended })
    }
}
