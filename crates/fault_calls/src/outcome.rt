//! What a search for a fault comes to, as C has it.
ghost use Rattle.std.specs.Prelude.{◌≡◌};
ghost use Rattle.fault_calls.specs.Outcomes.{type_number as type_number_of, given_number as given_number_of, no_value, value_outcome, found_value, no_table, table_at, table_outcome, found_table};

use handles::typed_calls::status::OK;
use row_map::ColumnType;
use table_faults::{TableCause, TableFault};
use value_faults::{ValueCause, ValueFault};

/// What the search for a wrong value came to.
#[repr(C)]
#[derive(Clone, Copy, Drop)]
pub struct ValueOutcome {
    /// The status. The other fields are 0 if it is not `OK`.
    pub status: i32,
    /// 0 if no value is wrong. 1: a key has another number of values. 2: a value of a key is not of
    /// its column's type. 3: the value for a column is not. 4: a column is named twice. What a cause
    /// does not name is 0.
    pub cause: u32,
    /// The operation, or the condition of a query, counted from 0.
    pub item: usize,
    /// At 1 how many values the key has; at 2 the place of the value in the key, counted from 0.
    pub place: usize,
    /// At 3 and 4 the number of the column.
    pub column: u32,
    /// At 2 and 3 the type of the column: 0 int, 1 text, 2 bool.
    pub wanted: u32,
    /// At 2 and 3 the type of the value, 3 if it is Null.
    pub given: u32,
}

/// What the search for a wrong declaration came to.
#[repr(C)]
#[derive(Clone, Copy, Drop)]
pub struct TableOutcome {
    /// The status. The other fields are 0 if it is not `OK`.
    pub status: i32,
    /// 0 if the tables may be declared; else the place of the cause in `TableCause`, counted from 1.
    /// What a cause does not name is 0.
    pub cause: u32,
    /// The table, counted from 0.
    pub table: usize,
    /// The index of the table, counted from 0.
    pub index: usize,
    /// The name of the table, or of the columns that the index lists, counted from 0.
    pub place: usize,
}

fn type_number(kind: ColumnType) -> u32
    ensures { result ≡ type_number_of kind }
{
    match kind {
        ColumnType::Int => 0,
        ColumnType::Text => 1,
        ColumnType::Bool => 2,
    }
}

fn given_number(kind: Option<ColumnType>) -> u32
    ensures { result ≡ given_number_of kind }
{
    match kind {
        Some(kind) => type_number(kind),
        None => 3,
    }
}

impl ValueOutcome {
    /// A status alone.
    pub(crate) fn of(status: i32) -> ValueOutcome
        ensures { result ≡ no_value status }
    {
        ValueOutcome {
            status,
            cause: 0,
            item: 0,
            place: 0,
            column: 0,
            wanted: 0,
            given: 0,
        }
    }

    // The fault of an item.
    fn at(item: usize, cause: ValueCause) -> ValueOutcome
        ensures { result ≡ value_outcome item cause }
    {
        let mut outcome = ValueOutcome::of(OK);
        outcome.item = item;
        match cause {
            ValueCause::KeyLength { given } => {
                outcome.cause = 1;
                outcome.place = given;
            }
            ValueCause::KeyValue {
                place,
                wanted,
                given,
            } => {
                outcome.cause = 2;
                outcome.place = place;
                outcome.wanted = type_number(wanted);
                outcome.given = given_number(given);
            }
            ValueCause::ColumnValue {
                column,
                wanted,
                given,
            } => {
                outcome.cause = 3;
                outcome.column = column;
                outcome.wanted = type_number(wanted);
                outcome.given = given_number(given);
            }
            ValueCause::NamedTwice { column } => {
                outcome.cause = 4;
                outcome.column = column;
            }
        }
        outcome
    }

    /// What was found.
    pub(crate) fn found(fault: Option<ValueFault>) -> ValueOutcome
        ensures { result ≡ found_value fault }
    {
        match fault {
            Some(ValueFault { item, cause }) => ValueOutcome::at(item, cause),
            None => ValueOutcome::of(OK),
        }
    }
}

impl TableOutcome {
    /// A status alone.
    pub(crate) fn of(status: i32) -> TableOutcome
        ensures { result ≡ no_table status }
    {
        TableOutcome {
            status,
            cause: 0,
            table: 0,
            index: 0,
            place: 0,
        }
    }

    // The fault of a table.
    fn at(table: usize, number: u32, index: usize, place: usize) -> TableOutcome
        ensures { result ≡ table_at table number index place }
    {
        TableOutcome {
            status: OK,
            cause: number,
            table,
            index,
            place,
        }
    }

    // The cause of a table's fault.
    fn caused(table: usize, cause: TableCause) -> TableOutcome
        ensures { result ≡ table_outcome table cause }
    {
        match cause {
            TableCause::NoTable => TableOutcome::at(table, 1, 0, 0),
            TableCause::TooManyTables => TableOutcome::at(table, 2, 0, 0),
            TableCause::TableName => TableOutcome::at(table, 3, 0, 0),
            TableCause::TableTwice => TableOutcome::at(table, 4, 0, 0),
            TableCause::KeyLength => TableOutcome::at(table, 5, 0, 0),
            TableCause::TooManyColumns => TableOutcome::at(table, 6, 0, 0),
            TableCause::TooManyIndexes => TableOutcome::at(table, 7, 0, 0),
            TableCause::Name { place } => TableOutcome::at(table, 8, 0, place),
            TableCause::NameTwice { place } => TableOutcome::at(table, 9, 0, place),
            TableCause::ListLength { index } => TableOutcome::at(table, 10, index, 0),
            TableCause::ListedTwice { index, place } => TableOutcome::at(table, 11, index, place),
            TableCause::NotAColumn { index, place } => TableOutcome::at(table, 12, index, place),
        }
    }

    /// What was found.
    pub(crate) fn found(fault: Option<TableFault>) -> TableOutcome
        ensures { result ≡ found_table fault }
    {
        match fault {
            Some(TableFault { table, cause }) => TableOutcome::caused(table, cause),
            None => TableOutcome::of(OK),
        }
    }
}
