//! Ranges of primary keys.
use keycode::Values;

/// The most rows that a page may have.
pub const MOST_ROWS: u32 = 1000;

/// The rows after a key and before another. A key is that of a row, whole: a value for each column of
/// the table's primary key, in their order. No row has to have it.
#[derive(Clone, PartialEq, Eq)]
pub struct KeyRange {
    /// The key after which the rows come; from the first on if there is none.
    pub after: Option<Values>,
    /// The key before which they end; up to the last if there is none.
    pub before: Option<Values>,
}

// By hand, so that a caller's proof sees one call and not each field's.
impl Drop for KeyRange {
    fn drop(self) {
        let KeyRange {
            after: _,
            before: _,
        } = self;
    }
}
