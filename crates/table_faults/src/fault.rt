//! What may be wrong with tables as they are declared.

/// Why tables may not be declared, lowest first. `declaration_fault` says which comes first of
/// several names or indexes.
#[derive(Clone, Copy, PartialEq, Eq)]
pub enum TableCause {
    /// No table is declared.
    NoTable,
    /// More than 16 tables are declared.
    TooManyTables,
    /// The table's name isn't 1 to 32 bytes, an ASCII letter and then letters, digits and
    /// underscores.
    TableName,
    /// A later table has the same name.
    TableTwice,
    /// Its key has no column, or more than 4.
    KeyLength,
    /// It has more than 32 columns outside its key.
    TooManyColumns,
    /// It has more than 16 indexes.
    TooManyIndexes,
    /// The name at this place isn't that either. Places count from 0, over the columns of the key,
    /// then the other columns, then the indexes.
    Name { place: usize },
    /// The name at this place stands again at a later one.
    NameTwice { place: usize },
    /// The index, counted from 0, lists no column, or more than 4.
    ListLength { index: usize },
    /// The index lists what is at this place of its list, counted from 0, again at a later one.
    ListedTwice { index: usize, place: usize },
    /// What the index lists at this place is no column of its table, or one of the key.
    NotAColumn { index: usize, place: usize },
}

/// The first fault of tables as they are declared.
#[derive(Clone, Copy, PartialEq, Eq)]
pub struct TableFault {
    /// The table, counted from 0: 0 if no table is declared, and 16 if there are too many.
    pub table: usize,
    pub cause: TableCause,
}
