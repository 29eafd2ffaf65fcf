//! What a check of one element finds.
use collections::List;
use keycode::Values;
use row_map::KeyOf;

/// What a check of one element finds.
#[derive(Drop)]
pub struct ElementReport {
    /// How many rows lack their pair of the element.
    pub missing: u64,
    /// How many pairs the element has that no row gives it.
    pub extra: u64,
    /// The primary keys of the first rows that lack their pair.
    pub missing_rows: List<Values>,
    /// The keys of the first pairs that no row gives the element.
    pub extra_keys: List<KeyOf>,
}
