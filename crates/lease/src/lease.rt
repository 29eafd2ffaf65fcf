//! The right to use one schema version for a time.

/// The right to use one schema version for a time, as in "Online, Asynchronous Schema Change in
/// F1": a server without a lease in force neither reads nor writes.
#[derive(Clone, Copy, PartialEq, Eq)]
pub struct Lease {
    /// The number of the version, from 1.
    pub version: u64,
    /// The moment at which it was granted.
    pub granted: u64,
    /// The first moment at which it is no longer in force.
    pub until: u64,
}
