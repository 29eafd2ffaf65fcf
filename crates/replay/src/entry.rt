//! The entries of a log.
use byte_map::Bytes;
use collections::ArcValue;
use lease::Lease;
use row_write::RowOps;
use schema_version::Step;

/// What an accepted call did.
pub enum What {
    /// A lease was granted.
    Lease(Lease),
    /// These operations were committed under a lease. The log shares them with the transaction that
    /// was prepared.
    Txn(Lease, ArcValue<RowOps>),
    /// A step of the schema was published: the newest version and the step give the next one.
    Publish(Step),
    /// A reorganisation of an element began, in so many pieces.
    Begin {
        /// The number of the element.
        element: u32,
        /// The number of pieces.
        pieces: u32,
    },
    /// A piece of an element's reorganisation was worked on.
    Piece {
        /// The number of the element.
        element: u32,
        /// The number of the piece, from 0.
        piece: u32,
        /// Where its cursor came to.
        cursor: Bytes,
    },
}

// By hand, so that a caller's proof sees one call and not each variant's.
impl Drop for What {
    fn drop(self) {
        match self {
            What::Lease(_)
            | What::Txn(_, _)
            | What::Publish(_)
            | What::Begin {
                element: _,
                pieces: _,
            }
            | What::Piece {
                element: _,
                piece: _,
                cursor: _,
            } => {}
        }
    }
}

/// An entry of the log, which has one for each accepted call and no other.
#[derive(Drop)]
pub struct Entry {
    /// The moment that counted in the call.
    pub moment: u64,
    /// What the call did. The log and the receipts share it.
    pub what: ArcValue<What>,
}
