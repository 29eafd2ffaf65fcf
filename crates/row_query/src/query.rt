//! Queries and their conditions.
use collections::List;
use keycode::{Value, Values};

/// What a row must meet to be answered. Columns go by their element numbers, and values are ordered
/// as keycode has it. A text may be of any length: one over 1,024 bytes is no row's, and rows lie
/// below and above it as by any other.
#[derive(Clone, PartialEq, Eq)]
pub enum Cond {
    /// The row has this primary key.
    Key(Values),
    /// The row has this value in a column.
    Equal {
        /// The number of the column.
        column: u32,
        /// The value. With Null the row has no value in the column, which no row lacks in a
        /// required one: it has the default.
        value: Value,
    },
    /// The row has a value in a column, and it lies between two bounds, both included.
    Between {
        /// The number of the column.
        column: u32,
        /// The least value, if there is one.
        low: Option<Value>,
        /// The greatest value, if there is one.
        high: Option<Value>,
    },
}

// By hand, so that a caller's proof sees one call and not each variant's.
impl Drop for Cond {
    fn drop(self) {
        match self {
            Cond::Key(_)
            | Cond::Equal {
                column: _,
                value: _,
            }
            | Cond::Between {
                column: _,
                low: _,
                high: _,
            } => {}
        }
    }
}

/// A query: the rows of one table that meet every condition, with the values of the named columns.
#[derive(Clone, PartialEq, Eq)]
pub struct Query {
    /// The number of the table.
    pub table: u32,
    /// The numbers of the columns whose values are answered, of a required column the default if a
    /// row has no value of its own. Their order says nothing, nor does a number that stands twice.
    pub columns: List<u32>,
    /// What the rows must meet, all of it.
    pub conditions: List<Cond>,
}

// By hand, so that a caller's proof sees one call and not each field's.
impl Drop for Query {
    fn drop(self) {
        let Query {
            table: _,
            columns: _,
            conditions: _,
        } = self;
    }
}

/// How the rows of a query are found.
#[derive(Clone, Copy, PartialEq, Eq)]
pub enum Path {
    /// One row is read by its primary key.
    Key,
    /// A part of the index of this number is gone over, and the rows that stand there are read by
    /// their keys.
    Index(u32),
    /// All rows of the table are gone over.
    Scan,
}
