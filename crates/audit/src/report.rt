//! What an audit counts.

/// What an audit counts.
#[derive(Clone, Copy, PartialEq, Eq)]
pub struct CheckReport {
    /// The rows: the `exists` pairs.
    pub rows: u64,
    /// The pairs that public indexes and required columns give the rows and the store lacks.
    pub missing: u64,
    /// The pairs that no row gives the store.
    pub extra: u64,
}
