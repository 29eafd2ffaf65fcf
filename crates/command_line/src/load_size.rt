//! The size of a load.

/// The most threads that insert.
pub const MAX_SERVERS: u32 = 16;

/// The most rows.
pub const MAX_ROWS: u32 = 100_000;

/// The most pieces of the fill.
pub const MAX_PIECES: u32 = 64;

/// The most threads that fill.
pub const MAX_WORKERS: u32 = 16;

/// The most rows that are filled at a time.
pub const MAX_LIMIT: u32 = 1_000;

/// The most rows a second that may be asked for.
pub const MAX_RATE: u32 = 1_000_000;

/// The size of a load. Its numbers are in their ranges exactly when `IsLoadSize` says so.
#[derive(Clone, Copy, PartialEq, Eq)]
pub struct LoadSize {
    /// How many threads insert rows, 1 to 16.
    pub servers: u32,
    /// How many rows are inserted, 1 to 100,000.
    pub rows: u32,
    /// In how many pieces the index is filled, 1 to 64.
    pub pieces: u32,
    /// How many threads fill it, 1 to 16.
    pub workers: u32,
    /// How many rows of a piece are filled at a time, 1 to 1,000.
    pub limit: u32,
}
