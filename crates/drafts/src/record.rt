//! Control records, and what a draft compares and writes of them.
ghost use Rattle.std.specs.Prelude.{◌≡◌};

use crate::key::Key;
use byte_map::Bytes;
use collections::{ArcValue, List};
use schema_version::{ElementDef, Schema, Work};
use std::alloc::AllocError;

/// A begun reorganisation, with the bounds of its pieces. Where each piece has come is in a record of
/// its own.
pub struct Reorg {
    /// What is filled or cleared, as it was at the begin.
    pub element: ElementDef,
    /// Whether it is filled or cleared.
    pub work: Work,
    /// The lower and the upper bound of each piece.
    pub bounds: List<(Bytes, Bytes)>,
}

// By hand, so that a caller's proof sees one call and not each field's.
impl Drop for Reorg {
    fn drop(self) {
        let Reorg {
            element: _,
            work: _,
            bounds: _,
        } = self;
    }
}

impl Clone for Reorg {
    ghost is_clone = { λ reorg copy. copy ≡ reorg };

    fn clone(&self) -> Result<Reorg, AllocError> {
        Ok(Reorg {
            element: self.element.clone()?,
            work: self.work,
            bounds: self.bounds.clone()?,
        })
    }
}

/// A control record.
pub enum Record {
    /// The schema of an open version.
    Version(ArcValue<Schema>),
    /// A begun reorganisation.
    Reorg(Reorg),
    /// How far a piece has come: the key from which on its work is still to be done.
    Cursor(Bytes),
    /// The transaction of the key's name is done.
    Mark,
}

// By hand, so that a caller's proof sees one call and not each variant's.
impl Drop for Record {
    fn drop(self) {
        match self {
            Record::Version(_) | Record::Reorg(_) | Record::Cursor(_) | Record::Mark => {}
        }
    }
}

/// Control records by their keys, each present or missing.
pub type Points = List<(Key, Option<Record>)>;

/// What a draft compares and writes of the control records. The store applies it in one atomic
/// transaction, together with what the draft has of pairs, if each comparison holds.
pub struct Control {
    /// The records that have to be there with these values, and those that have to be missing.
    pub reads: Points,
    /// The records that are then put, and those that are removed.
    pub writes: Points,
}

// By hand, so that a caller's proof sees one call and not each field's.
impl Drop for Control {
    fn drop(self) {
        let Control {
            reads: _,
            writes: _,
        } = self;
    }
}

impl Control {
    /// What is compared, and what is then written, for a caller that takes both apart.
    pub fn into_parts(self) -> (Points, Points)
        ensures reads { result.0 ≡ self.reads }
        ensures writes { result.1 ≡ self.writes }
    {
        let Control { reads, writes } = self;
        (reads, writes)
    }
}
