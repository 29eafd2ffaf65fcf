//! Why tables may not be declared.
use crate::make::{self, text};
use collections::List;
use keycode::Text;
use row_map::ColumnType::Int;
use schema_version::{Columns, DeclareFault, Schema, TableDef};
use std::alloc::{AllocError, Global};
use std::test::*;
use table_faults::TableCause::{
    self, KeyLength, ListLength, ListedTwice, Name, NameTwice, NoTable, NotAColumn, TableName,
    TableTwice, TooManyColumns, TooManyIndexes, TooManyTables,
};
use table_faults::{TableFault, declaration_fault};

type Names = &'static [&'static str];

/// An index of a name over these columns.
type PlainIndex = (&'static str, Names);

/// A table of a name, with the columns of its key, its other columns and its indexes. All columns
/// are of integers.
type PlainTable = (&'static str, Names, Names, &'static [PlainIndex]);

/// Tables, and the one at fault with what is wrong, if there is one.
type Case = (&'static [PlainTable], Option<(usize, TableCause)>);

const ID: Names = &["id"];

const A: Names = &["a"];

const T: PlainTable = ("t", ID, &["a", "b"], &[("i", A)]);

const U: PlainTable = ("u", ID, A, &[("i", A)]);

const NAME_32: &str = "n2345678901234567890123456789012";

const NAME_33: &str = "n23456789012345678901234567890123";

static TABLES: [Case; 12] = [
    (&[T, U], None),
    (&[("", ID, &[], &[])], Some((0, TableName))),
    (&[T, ("2t", ID, &[], &[])], Some((1, TableName))),
    (&[T, U, ("v-w", ID, &[], &[])], Some((2, TableName))),
    (&[(NAME_32, ID, &[], &[])], None),
    (&[(NAME_33, ID, &[], &[])], Some((0, TableName))),
    (&[T, U, T], Some((0, TableTwice))),
    (&[T, U, U], Some((1, TableTwice))),
    // A letter in capitals is another one.
    (&[T, ("T", ID, &[], &[])], None),
    // Of two faults of a table the lower one is given.
    (
        &[("", ID, &[], &[]), ("", ID, &[], &[])],
        Some((0, TableName)),
    ),
    (&[("t", &[], &[], &[]), T], Some((0, TableTwice))),
    // Of two tables at fault the first one is given.
    (
        &[("t", &[], &[], &[]), ("", ID, &[], &[])],
        Some((0, KeyLength)),
    ),
];

/// The names of tables, a byte each, and the fault.
static COUNTS: [(&[u8], Option<(usize, TableCause)>); 4] = [
    (b"", Some((0, NoTable))),
    (b"t", None),
    (b"abcdefghijklmnop", None),
    // The lower fault is given: the last has the name of the first.
    (b"abcdefghijklmnopa", Some((16, TooManyTables))),
];

const COLUMNS_32: &[u8] = b"ABCDEFGHIJKLMNOPQRSTUVWXYZabcdef";

const COLUMNS_33: &[u8] = b"ABCDEFGHIJKLMNOPQRSTUVWXYZabcdefg";

/// The names of the key's columns, of other columns and of indexes over A, a byte each, and the
/// fault.
static SIZES: [(&[u8], &[u8], &[u8], Option<(usize, TableCause)>); 9] = [
    (b"", b"A", b"", Some((0, KeyLength))),
    (b"wxyz", b"A", b"", None),
    (b"vwxyz", b"A", b"", Some((0, KeyLength))),
    (b"z", COLUMNS_32, b"", None),
    (b"z", COLUMNS_33, b"", Some((0, TooManyColumns))),
    (b"z", b"A", b"hijklmnopqrstuvw", None),
    (b"z", b"A", b"hijklmnopqrstuvwx", Some((0, TooManyIndexes))),
    // Of two faults the lower one is given.
    (b"vwxyz", COLUMNS_33, b"", Some((0, KeyLength))),
    (
        b"z",
        COLUMNS_33,
        b"hijklmnopqrstuvwxx",
        Some((0, TooManyColumns)),
    ),
];

static NAMES: [Case; 18] = [
    (&[("t", &["id", ""], A, &[])], Some((0, Name { place: 1 }))),
    (
        &[("t", &["id", "k"], &["a", "b c"], &[])],
        Some((0, Name { place: 3 })),
    ),
    (
        &[T, ("u", ID, A, &[("i", A), ("_j", A)])],
        Some((1, Name { place: 3 })),
    ),
    (&[("t", ID, &[NAME_32], &[])], None),
    (
        &[("t", ID, &["a", NAME_33], &[])],
        Some((0, Name { place: 2 })),
    ),
    (
        &[("t", &["id", "id"], A, &[])],
        Some((0, NameTwice { place: 0 })),
    ),
    (
        &[("t", &["k", "id"], &["a", "id"], &[])],
        Some((0, NameTwice { place: 1 })),
    ),
    (
        &[("t", &["k", "id"], A, &[("id", A)])],
        Some((0, NameTwice { place: 1 })),
    ),
    (
        &[T, ("u", ID, &["a", "b", "a"], &[])],
        Some((1, NameTwice { place: 1 })),
    ),
    (
        &[("t", ID, &["a", "b"], &[("b", A)])],
        Some((0, NameTwice { place: 2 })),
    ),
    (
        &[("t", ID, A, &[("i", A), ("j", A), ("i", A)])],
        Some((0, NameTwice { place: 2 })),
    ),
    // A letter in capitals is another one, and the table's own name counts for nothing here.
    (&[("a", ID, &["a", "A"], &[])], None),
    // Of two places the first one is given, and at one place the lower fault.
    (&[("t", &["", ""], A, &[])], Some((0, Name { place: 0 }))),
    (
        &[("t", A, &["a", ""], &[])],
        Some((0, NameTwice { place: 0 })),
    ),
    (
        &[("t", &[""], &["a", "a"], &[])],
        Some((0, Name { place: 0 })),
    ),
    // Names come before what indexes list.
    (
        &[("t", ID, A, &[("i", &[]), ("", A)])],
        Some((0, Name { place: 3 })),
    ),
    (
        &[("t", ID, A, &[("i", &[]), ("a", A)])],
        Some((0, NameTwice { place: 1 })),
    ),
    (
        &[("t", ID, A, &[("i", &[])]), ("u", &[""], A, &[])],
        Some((0, ListLength { index: 0 })),
    ),
];

const FIVE: Names = &["a", "b", "c", "d", "e"];

static LISTS: [Case; 14] = [
    (
        &[("t", ID, A, &[("i", &[])])],
        Some((0, ListLength { index: 0 })),
    ),
    (&[("t", ID, FIVE, &[("i", &["d", "c", "b", "a"])])], None),
    (
        &[T, ("u", ID, FIVE, &[("i", A), ("j", FIVE)])],
        Some((1, ListLength { index: 1 })),
    ),
    (
        &[("t", ID, FIVE, &[("i", &["b", "a", "a"])])],
        Some((0, ListedTwice { index: 0, place: 1 })),
    ),
    (
        &[("t", ID, FIVE, &[("i", &["a", "b", "a"])])],
        Some((0, ListedTwice { index: 0, place: 0 })),
    ),
    (
        &[("t", ID, FIVE, &[("i", &["a", "x"])])],
        Some((0, NotAColumn { index: 0, place: 1 })),
    ),
    // A column of the key, an index, and a column of another table.
    (
        &[("t", ID, FIVE, &[("i", &["a", "id"])])],
        Some((0, NotAColumn { index: 0, place: 1 })),
    ),
    (
        &[("t", ID, FIVE, &[("i", A), ("j", &["i"])])],
        Some((0, NotAColumn { index: 1, place: 0 })),
    ),
    (
        &[T, ("u", ID, A, &[("i", &["a", "b"])])],
        Some((1, NotAColumn { index: 0, place: 1 })),
    ),
    // Of two indexes the first one is given, of two places the first, and at one place the lower
    // fault.
    (
        &[("t", ID, A, &[("i", &["x"]), ("j", &[])])],
        Some((0, NotAColumn { index: 0, place: 0 })),
    ),
    (
        &[("t", ID, A, &[("i", &["x", "a", "a"])])],
        Some((0, NotAColumn { index: 0, place: 0 })),
    ),
    (
        &[("t", ID, A, &[("i", &["x", "x"])])],
        Some((0, ListedTwice { index: 0, place: 0 })),
    ),
    (
        &[("t", ID, A, &[("i", &["a", "a", "x"])])],
        Some((0, ListedTwice { index: 0, place: 0 })),
    ),
    (
        &[("t", ID, A, &[("i", &["x", "x", "x", "x", "x"])])],
        Some((0, ListLength { index: 0 })),
    ),
];

fn texts(alloc: Global, names: &[&'static str]) -> Result<List<Text>, AllocError> {
    let mut all = Vec::new(alloc);
    for name in names {
        all.push(text(alloc, *name)?)?;
    }
    Ok(List::new(all))
}

fn columns(alloc: Global, names: &[&'static str]) -> Result<Columns, AllocError> {
    let mut all = Vec::new(alloc);
    for name in names {
        all.push((text(alloc, *name)?, Int))?;
    }
    Ok(List::new(all))
}

fn indexes(alloc: Global, plain: &[PlainIndex]) -> Result<List<(Text, List<Text>)>, AllocError> {
    let mut all = Vec::new(alloc);
    for (name, over) in plain {
        let name = text(alloc, *name)?;
        all.push((name, texts(alloc, *over)?))?;
    }
    Ok(List::new(all))
}

fn table(alloc: Global, plain: &PlainTable) -> Result<TableDef, AllocError> {
    Ok(TableDef {
        name: text(alloc, plain.0)?,
        key: columns(alloc, plain.1)?,
        columns: columns(alloc, plain.2)?,
        indexes: indexes(alloc, plain.3)?,
    })
}

fn tables(alloc: Global, plain: &[PlainTable]) -> Result<Vec<TableDef>, AllocError> {
    let mut all = Vec::new(alloc);
    for a in plain {
        all.push(table(alloc, a)?)?;
    }
    Ok(all)
}

/// Whether these tables may be declared.
fn may_declare(alloc: Global, tables: &[TableDef]) -> Result<bool, AllocError> {
    match Schema::declared(alloc, tables) {
        Ok(_) => Ok(true),
        Err(DeclareFault::BadTable) => Ok(false),
        Err(DeclareFault::Memory) => Err(AllocError),
    }
}

fn is_fault(fault: Option<TableFault>, wanted: Option<(usize, TableCause)>) -> bool {
    match (fault, wanted) {
        (Some(fault), Some((table, cause))) => fault == TableFault { table, cause },
        (None, None) => true,
        _ => false,
    }
}

/// Whether the tables have the fault that is wanted, and may be declared exactly if they have none.
fn has_fault(
    alloc: Global,
    tables: &[TableDef],
    wanted: Option<(usize, TableCause)>,
) -> Result<bool, AllocError> {
    let fault = declaration_fault(tables);
    Ok(is_fault(fault, wanted) && may_declare(alloc, tables)? == fault.is_none())
}

fn holds(alloc: Global, case: &Case) -> Result<bool, AllocError> {
    has_fault(alloc, &tables(alloc, case.0)?, case.1)
}

fn holds_of_tables(
    alloc: Global,
    names: &[u8],
    wanted: Option<(usize, TableCause)>,
) -> Result<bool, AllocError> {
    let mut tables = Vec::new(alloc);
    for name in names {
        tables.push(make::table(alloc, &(*name, b"", b"", b""))?)?;
    }
    has_fault(alloc, &tables, wanted)
}

fn sized(
    alloc: Global,
    key: &[u8],
    columns: &[u8],
    indexes: &[u8],
) -> Result<TableDef, AllocError> {
    Ok(TableDef {
        name: text(alloc, "t")?,
        key: make::ints(alloc, key)?,
        columns: make::ints(alloc, columns)?,
        indexes: make::indexes(alloc, indexes, b"A")?,
    })
}

fn holds_of_sizes(
    alloc: Global,
    names: (&[u8], &[u8], &[u8]),
    wanted: Option<(usize, TableCause)>,
) -> Result<bool, AllocError> {
    let table = sized(alloc, names.0, names.1, names.2)?;
    has_fault(alloc, &vec![in alloc; table]?, wanted)
}

#[test]
fn faults_of_counts(rt: HostRuntime) {
    for row in 0..COUNTS.len() {
        let (names, wanted) = COUNTS[row];
        assert!(rt;
            holds_of_tables(rt.alloc(), names, wanted) == Ok(true),
            "row {row}"
        );
    }
}

#[test]
fn faults_of_sizes(rt: HostRuntime) {
    for row in 0..SIZES.len() {
        let (key, columns, indexes, wanted) = SIZES[row];
        let names = (key, columns, indexes);
        assert!(rt;
            holds_of_sizes(rt.alloc(), names, wanted) == Ok(true),
            "row {row}"
        );
    }
}

#[test]
fn faults_of_tables(rt: HostRuntime) {
    for row in 0..TABLES.len() {
        assert!(rt; holds(rt.alloc(), &TABLES[row]) == Ok(true), "row {row}");
    }
}

#[test]
fn faults_of_names(rt: HostRuntime) {
    for row in 0..NAMES.len() {
        assert!(rt; holds(rt.alloc(), &NAMES[row]) == Ok(true), "row {row}");
    }
}

#[test]
fn faults_of_lists(rt: HostRuntime) {
    for row in 0..LISTS.len() {
        assert!(rt; holds(rt.alloc(), &LISTS[row]) == Ok(true), "row {row}");
    }
}
