//! What is wrong with a value.
use row_map::ColumnType;

/// What is wrong with a value, or with the list that it is in.
#[derive(Clone, Copy, PartialEq, Eq)]
pub enum ValueCause {
    /// A key has another number of values than the table's key has columns.
    KeyLength {
        /// How many values it has.
        given: usize,
    },
    /// A value of a key is not one of its column's type.
    KeyValue {
        /// Its place in the key, from 0.
        place: usize,
        /// The type of the column.
        wanted: ColumnType,
        /// The type of the value; Null has none. If it is `wanted` itself, a text has more than
        /// 1,024 bytes.
        given: Option<ColumnType>,
    },
    /// The value for a column is not one of its type.
    ColumnValue {
        /// The number of the column.
        column: u32,
        /// The type of the column.
        wanted: ColumnType,
        /// The type of the value; Null has none. If it is `wanted` itself, a text has more than
        /// 1,024 bytes.
        given: Option<ColumnType>,
    },
    /// A column is named twice.
    NamedTwice {
        /// The number of the column.
        column: u32,
    },
}

/// The first wrong value of a transaction or of a query.
#[derive(Clone, Copy, PartialEq, Eq)]
pub struct ValueFault {
    /// The operation, or the condition of the query, from 0.
    pub item: usize,
    /// What is wrong there.
    pub cause: ValueCause,
}
