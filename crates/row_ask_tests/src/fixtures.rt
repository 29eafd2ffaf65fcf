//! Table 1, named t, has the primary key `id` and the column `a`, which is element 1, both numbers,
//! and the index `i` on `a`, which is element 2. The key of a row's pair is 52, the table, the
//! primary key and the element, or 0 for the `exists` pair; that of an index's pair is 58, the
//! element, the value and the primary key. A number is 02 and its eight bytes with the highest bit
//! flipped, Null is 01.
use byte_map::{Bytes, KeyMap};
use collections::List;
use keycode::{Text, Value, Values};
use row_map::ColumnType;
use schema_version::{Columns, ElementState, Move, Schema, TableDef};
use std::alloc::{AllocError, Global};

/// The keys of the `exists` pairs of the rows 1 to 4.
pub const ROW_1: &[u8] = b"\x52\0\0\0\x01\x02\x80\0\0\0\0\0\0\x01\0\0\0\0";

pub const ROW_2: &[u8] = b"\x52\0\0\0\x01\x02\x80\0\0\0\0\0\0\x02\0\0\0\0";

pub const ROW_3: &[u8] = b"\x52\0\0\0\x01\x02\x80\0\0\0\0\0\0\x03\0\0\0\0";

pub const ROW_4: &[u8] = b"\x52\0\0\0\x01\x02\x80\0\0\0\0\0\0\x04\0\0\0\0";

/// The keys of the pairs of `a` in the rows 1, 3 and 4.
pub const A_1: &[u8] = b"\x52\0\0\0\x01\x02\x80\0\0\0\0\0\0\x01\0\0\0\x01";

pub const A_3: &[u8] = b"\x52\0\0\0\x01\x02\x80\0\0\0\0\0\0\x03\0\0\0\x01";

pub const A_4: &[u8] = b"\x52\0\0\0\x01\x02\x80\0\0\0\0\0\0\x04\0\0\0\x01";
/// The keys of the index's pairs, by the value and the row.
pub const I_5_1: &[u8] = b"\x58\0\0\0\x02\x02\x80\0\0\0\0\0\0\x05\x02\x80\0\0\0\0\0\0\x01";

pub const I_5_3: &[u8] = b"\x58\0\0\0\x02\x02\x80\0\0\0\0\0\0\x05\x02\x80\0\0\0\0\0\0\x03";

pub const I_9_4: &[u8] = b"\x58\0\0\0\x02\x02\x80\0\0\0\0\0\0\x09\x02\x80\0\0\0\0\0\0\x04";
/// The same without a value.
pub const I_NULL_2: &[u8] = b"\x58\0\0\0\x02\x01\x02\x80\0\0\0\0\0\0\x02";
/// The values 5 and 9, and no byte.
pub const FIVE: &[u8] = b"\x02\x80\0\0\0\0\0\0\x05";

pub const NINE: &[u8] = b"\x02\x80\0\0\0\0\0\0\x09";

pub const EMPTY: &[u8] = b"";

/// Prints the line from which on the step for refusals counts allocations.
pub fn mark<R: Print>(rt: &R) -> bool {
    rt.println("from here on").is_ok()
}

/// Pairs of a store.
pub type Pairs<'a> = &'a [(&'a [u8], &'a [u8])];

/// A value as a literal.
#[derive(Clone, Copy)]
pub enum Plain {
    Null,
    Int(i64),
}

pub fn text(alloc: Global, content: &str) -> Result<Text, AllocError> {
    Ok(Text::new(String::from_str(alloc, content)?))
}

/// The value of a literal.
pub fn value(alloc: Global, plain: Plain) -> Result<Value, AllocError> {
    match plain {
        Plain::Null => Ok(Value::Null),
        Plain::Int(number) => Ok(Value::Int(number)),
    }
}

/// The key of this one value.
pub fn key(alloc: Global, plain: Plain) -> Result<Values, AllocError> {
    let value = value(alloc, plain)?;
    Ok(List::new(vec![in alloc; value]?))
}

pub fn bytes(alloc: Global, content: &[u8]) -> Result<Bytes, AllocError> {
    Bytes::new(Vec::from_slice(alloc, content)?)
}

/// A store of these pairs.
pub fn store(alloc: Global, pairs: Pairs) -> Result<KeyMap<Bytes>, AllocError> {
    let mut store = KeyMap::new(alloc);
    for (key, value) in pairs {
        store.insert(bytes(alloc, key)?, bytes(alloc, value)?)?;
    }
    Ok(store)
}

/// One column of numbers.
fn column(alloc: Global, name: &str) -> Result<Columns, AllocError> {
    let name = text(alloc, name)?;
    Ok(List::new(vec![in alloc; (name, ColumnType::Int)]?))
}

/// The index `i` on `a`.
fn indexes(alloc: Global) -> Result<List<(Text, List<Text>)>, AllocError> {
    let a = text(alloc, "a")?;
    let columns = List::new(vec![in alloc; a]?);
    let name = text(alloc, "i")?;
    Ok(List::new(vec![in alloc; (name, columns)]?))
}

fn table(alloc: Global) -> Result<TableDef, AllocError> {
    let name = text(alloc, "t")?;
    let key = column(alloc, "id")?;
    let columns = column(alloc, "a")?;
    let indexes = indexes(alloc)?;
    Ok(TableDef {
        name,
        key,
        columns,
        indexes,
    })
}

/// The schema with that table, its elements public.
pub fn declared(alloc: Global) -> Result<Schema, AllocError> {
    let table = table(alloc)?;
    let tables = vec![in alloc; table]?;
    match Schema::declared(alloc, tables.as_slice()) {
        Ok(schema) => Ok(schema),
        Err(_) => Err(AllocError),
    }
}

fn after(alloc: Global, schema: &Schema, a: Move) -> Result<Schema, AllocError> {
    let step = List::new(vec![in alloc; a]?);
    match schema.apply(&step) {
        Ok(schema) => Ok(schema),
        Err(_) => Err(AllocError),
    }
}

/// The same with the index in the last of these states, through which it goes.
pub fn stepped(alloc: Global, states: &[ElementState]) -> Result<Schema, AllocError> {
    let mut schema = declared(alloc)?;
    for to in states {
        let to = *to;
        schema = after(alloc, &schema, Move::Go { element: 2, to })?;
    }
    Ok(schema)
}
