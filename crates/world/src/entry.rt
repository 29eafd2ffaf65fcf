//! What accepted calls give back: receipts, grants and ended pieces.
use collections::ArcValue;
use lease::Lease;
use replay::Entry;
use schema_version::Schema;

/// The proof of an accepted call: where its entry is in the log.
#[derive(Drop)]
pub struct Receipt {
    /// The place of the entry, counted from 1.
    pub place: u64,
    /// The entry.
    pub entry: Entry,
}

/// A lease as it is handed to a server.
#[derive(Drop)]
pub struct Grant {
    /// The lease, on the newest version.
    pub lease: Lease,
    /// The schema of that version.
    pub schema: ArcValue<Schema>,
    /// The receipt for the lease's entry.
    pub receipt: Receipt,
}

/// A piece that was committed.
#[derive(Drop)]
pub struct PieceDone {
    /// The receipt for its entry.
    pub receipt: Receipt,
    /// Whether the piece has come to its end.
    pub ended: bool,
}
