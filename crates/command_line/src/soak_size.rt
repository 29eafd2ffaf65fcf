//! The size of a soak.

/// The most updates.
pub const MAX_UPDATES: u32 = 1_000_000_000;

/// The size of a soak. Its numbers are in their ranges exactly when `IsSoakSize` says so.
#[derive(Clone, Copy, PartialEq, Eq)]
pub struct SoakSize {
    /// How many updates are committed, 1 to 1,000,000,000.
    pub updates: u32,
    /// How many rows there are, 1 to 100,000.
    pub rows: u32,
    /// How many threads update them, 1 to 16.
    pub servers: u32,
}
