//! Table 1, named t, has the primary key `g`, `id` and the column `a`, which is element 1: all are
//! numbers. Its rows, by their keys and `a`: (1, 1) 5, (1, 2) without a value, (2, 1) 5, (2, 7) 9 and
//! (3, 0) 5.
use byte_map::{Bytes, KeyMap};
use collections::List;
use keycode::{Text, Value, Values, encode};
use row_map::{ColumnType, column_key, exists_key};
use row_page::KeyRange;
use row_query::{Cond, Query};
use schema_version::{Columns, Schema, TableDef};
use std::alloc::{AllocError, Global};

/// The rows: the two key columns, and `a` where there is a value.
pub static ROWS: [(i64, i64, Option<i64>); 5] = [
    (1, 1, Some(5)),
    (1, 2, None),
    (2, 1, Some(5)),
    (2, 7, Some(9)),
    (3, 0, Some(5)),
];

/// Prints the line from which on the step for refusals counts allocations.
pub fn mark<R: Print>(rt: &R) -> bool {
    rt.println("from here on").is_ok()
}

fn text(alloc: Global, content: &str) -> Result<Text, AllocError> {
    Ok(Text::new(String::from_str(alloc, content)?))
}

/// The key of these two numbers.
pub fn key(alloc: Global, key: (i64, i64)) -> Result<Values, AllocError> {
    Ok(List::new(vec![in alloc; Value::Int(key.0), Value::Int(key.1)]?))
}

fn add_row(
    alloc: Global,
    store: &mut KeyMap<Bytes>,
    row: (i64, i64, Option<i64>),
) -> Result<(), AllocError> {
    let key = key(alloc, (row.0, row.1))?;
    let exists = exists_key(alloc, 1, key.as_slice())?;
    store.insert(exists, Bytes::from_slice(alloc, b"")?)?;
    if let Some(a) = row.2 {
        let value = encode(alloc, &[Value::Int(a)])?;
        let column = column_key(alloc, 1, key.as_slice(), 1)?;
        store.insert(column, Bytes::new(value)?)?;
    }
    Ok(())
}

/// The pairs of the five rows.
pub fn store(alloc: Global) -> Result<KeyMap<Bytes>, AllocError> {
    let mut store = KeyMap::new(alloc);
    for row in &ROWS {
        add_row(alloc, &mut store, *row)?;
    }
    Ok(store)
}

fn key_columns(alloc: Global) -> Result<Columns, AllocError> {
    let g = text(alloc, "g")?;
    let id = text(alloc, "id")?;
    Ok(List::new(vec![in alloc; (g, ColumnType::Int), (id, ColumnType::Int)]?))
}

fn columns(alloc: Global) -> Result<Columns, AllocError> {
    let a = text(alloc, "a")?;
    Ok(List::new(vec![in alloc; (a, ColumnType::Int)]?))
}

fn table(alloc: Global) -> Result<TableDef, AllocError> {
    let name = text(alloc, "t")?;
    let key = key_columns(alloc)?;
    let columns = columns(alloc)?;
    let indexes = List::new(Vec::new(alloc));
    Ok(TableDef {
        name,
        key,
        columns,
        indexes,
    })
}

/// The schema with that table, its column public.
pub fn declared(alloc: Global) -> Result<Schema, AllocError> {
    let table = table(alloc)?;
    let tables = vec![in alloc; table]?;
    match Schema::declared(alloc, tables.as_slice()) {
        Ok(schema) => Ok(schema),
        Err(_) => Err(AllocError),
    }
}

/// A query of the column `a` of a table; of the rows with this value in a column, if one is given.
pub fn query(alloc: Global, table: u32, equal: Option<(u32, i64)>) -> Result<Query, AllocError> {
    let mut conditions = Vec::new(alloc);
    if let Some((column, number)) = equal {
        let value = Value::Int(number);
        conditions.push(Cond::Equal { column, value })?;
    }
    let column = 1u32;
    Ok(Query {
        table,
        columns: List::new(vec![in alloc; column]?),
        conditions: List::new(conditions),
    })
}

fn bound(alloc: Global, at: Option<(i64, i64)>) -> Result<Option<Values>, AllocError> {
    match at {
        None => Ok(None),
        Some(at) => Ok(Some(key(alloc, at)?)),
    }
}

/// The rows after a key and before another.
pub fn range(
    alloc: Global,
    after: Option<(i64, i64)>,
    before: Option<(i64, i64)>,
) -> Result<KeyRange, AllocError> {
    let after = bound(alloc, after)?;
    let before = bound(alloc, before)?;
    Ok(KeyRange { after, before })
}

/// The range after one key alone, which is not one of the table's.
pub fn after_value(alloc: Global, value: Value) -> Result<KeyRange, AllocError> {
    let after = Some(List::new(vec![in alloc; Value::Int(1), value]?));
    let before = None;
    Ok(KeyRange { after, before })
}

/// The range after a key of one value.
pub fn after_short(alloc: Global) -> Result<KeyRange, AllocError> {
    let after = Some(List::new(vec![in alloc; Value::Int(1)]?));
    let before = None;
    Ok(KeyRange { after, before })
}
