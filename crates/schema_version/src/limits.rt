//! How many of each there may be.

/// The greatest number of tables.
pub const MAX_TABLES: usize = 16;

/// The greatest number of columns of a table's key.
pub const MAX_KEY_COLUMNS: usize = 4;

/// The greatest number of live columns of a table beside those of its key.
pub const MAX_COLUMNS: usize = 32;

/// The greatest number of live indexes of a table.
pub const MAX_INDEXES: usize = 16;

/// The greatest number of columns that an index lists.
pub const MAX_LISTED: usize = 4;

/// The greatest element number.
pub const MAX_ELEMENTS: usize = 1_000_000;

/// The greatest length of a name, in bytes.
pub const MAX_NAME: usize = 32;
