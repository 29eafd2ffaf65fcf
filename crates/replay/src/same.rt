//! Equality of entries of the log.
ghost use Rattle.std.specs.Bool.{Decides};
ghost use Rattle.std.specs.Prelude.{◌≡◌};

use crate::entry::{Entry, What};
use row_write::are_same_ops;
use schema_version::{Step, are_same_moves};

// Whether two steps are the same.
fn is_same_step(one: &Step, other: &Step) -> bool
    ensures { Decides result (one.now ≡ other.now) }
{
    are_same_moves(one.as_slice(), other.as_slice())
}

// Whether two calls did the same.
fn did_same(one: &What, other: &What) -> bool
    ensures { Decides result (one.now ≡ other.now) }
{
    match (one, other) {
        (What::Lease(lease), What::Lease(second)) => lease == second,
        (What::Txn(lease, ops), What::Txn(second, more)) => lease == second
            && are_same_ops(ops.get().as_slice(), more.get().as_slice()),
        (What::Publish(step), What::Publish(second)) => is_same_step(step, second),
        (
            What::Begin { element, pieces },
            What::Begin {
                element: second,
                pieces: count,
            },
        ) => element == second && pieces == count,
        (
            What::Piece {
                element,
                piece,
                cursor,
            },
            What::Piece {
                element: second,
                piece: number,
                cursor: key,
            },
        ) => element == second && piece == number && cursor == key,
        _ => false,
    }
}

impl Entry {
    /// Whether the other entry is the same: of the same moment, and of a call that did the same.
    /// Never refused.
    pub fn is_same(&self, other: &Entry) -> bool
        ensures { Decides result (self.now ≡ other.now) }
    {
        self.moment == other.moment && did_same(self.what.get(), other.what.get())
    }
}
