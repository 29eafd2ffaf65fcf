//! The pieces of fills and clears, and how far each has come.
use byte_map::Bytes;
use collections::List;
use schema_version::{ElementDef, Work};

/// A piece of a reorganisation: its bounds, and how far it has come.
#[derive(Clone, PartialEq, Eq)]
pub struct Span {
    /// The first key that may be in the piece.
    pub low: Bytes,
    /// The key before which the piece ends.
    pub high: Bytes,
    /// The key from which on the work is still to be done. The piece has ended if this is `high`.
    pub cursor: Bytes,
}

// By hand, so that a caller's proof sees one call and not each field's.
impl Drop for Span {
    fn drop(self) {
        let Span {
            low: _,
            high: _,
            cursor: _,
        } = self;
    }
}

/// How far a reorganisation has come. Whoever commits a piece moves its cursor.
#[derive(Clone, PartialEq, Eq)]
pub struct Progress {
    /// The element that is filled or cleared, as it was at the begin.
    pub element: ElementDef,
    /// Whether it is filled or cleared.
    pub kind: Work,
    /// The pieces, in the order of their keys.
    pub pieces: List<Span>,
}

// By hand, so that a caller's proof sees one call and not each field's.
impl Drop for Progress {
    fn drop(self) {
        let Progress {
            element: _,
            kind: _,
            pieces: _,
        } = self;
    }
}
