//! What is still to be read for a query.
ghost use Rattle.std.specs.Prelude.{◌≡◌, true, List as PlainList};
ghost use Rattle.std.specs.Ordering.{is_eq};
ghost use Rattle.keycode.specs.declared.value.Value.{Value as PlainValue};
ghost use Rattle.keycode.specs.Order.{bytes_cmp};
ghost use Rattle.row_map.specs.Rows.{Pairs};
ghost use Rattle.row_ask.specs.Remaining.{keys_with_rest};

use byte_map::Bytes;
use collections::List;
use keycode::Values;

/// A part of an index that has the primary keys of all rows that are asked for.
pub struct IndexRange {
    /// The number of the index.
    pub number: u32,
    /// How many columns it is over.
    pub width: usize,
    /// From which key of the store on.
    pub low: Bytes,
    /// Below which key.
    pub high: Bytes,
}

// By hand, so that a caller's proof sees one call and not each field's.
impl Drop for IndexRange {
    fn drop(self) {
        let IndexRange {
            number: _,
            width: _,
            low: _,
            high: _,
        } = self;
    }
}

impl IndexRange {
    /// Whether nothing is left to read of it.
    pub fn is_read(&self) -> bool
        ensures exact { result ≡ is_eq (bytes_cmp self.now.low self.now.high) }
        ensures nothing_left { result ≡ true → (store : Pairs) (keys : PlainList (PlainList PlainValue)) → keys_with_rest store self.now keys ≡ keys }
    {
        self.low.compare(self.high.as_slice()).is_eq()
    }
}

/// What is still to be read for a query.
pub enum Remaining {
    /// The rows of these keys.
    Rows(List<Values>),
    /// A part of an index, and then the rows of the keys in it.
    Index(IndexRange),
    /// The rows of the table from this key of the store on.
    Scan(Bytes),
}

// By hand, so that a caller's proof sees one call and not each variant's.
impl Drop for Remaining {
    fn drop(self) {
        match self {
            Remaining::Rows(_) | Remaining::Index(_) | Remaining::Scan(_) => {}
        }
    }
}
