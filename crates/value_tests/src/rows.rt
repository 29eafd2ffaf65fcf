//! Table 1 has the primary key `id` and the column `a`, which is element 1, both numbers, and an
//! index on `a`, which is element 2. Its row 1 has a 5 in `a`. A key of a row is 52, the table, the
//! key, and the element or 0; one of an index is 58, the element, the value and the key. A number
//! is 02 and its eight bytes with the highest bit flipped.
use crate::fixtures::{bytes, mark};
use byte_map::{Bytes, KeyMap};
use collections::List;
use keycode::{KeyFault, Value};
use row_map::{
    ColumnType, KeyOf, Row, ShapeFault, TableShape, column_key, exists_key, index_key, read_cell,
    read_key, row_from_pairs,
};
use std::alloc::{AllocError, Global};

/// The `exists` pair of row 1.
const EXISTS: &[u8] = b"\x52\0\0\0\x01\x02\x80\0\0\0\0\0\0\x01\0\0\0\0";
/// The pair of column `a` in row 1.
const COLUMN: &[u8] = b"\x52\0\0\0\x01\x02\x80\0\0\0\0\0\0\x01\0\0\0\x01";
/// The index's pair of row 1.
const INDEX: &[u8] = b"\x58\0\0\0\x02\x02\x80\0\0\0\0\0\0\x05\x02\x80\0\0\0\0\0\0\x01";
/// The `exists` pair of a row whose key is Null.
const NULL_ROW: &[u8] = b"\x52\0\0\0\x01\x01\0\0\0\0";
/// The value 5.
const FIVE: &[u8] = b"\x02\x80\0\0\0\0\0\0\x05";

/// What a key is of: its letter, its number and the element of a column, with its values if these
/// are one number or two.
fn parts(of: &KeyOf) -> (u8, u32, u32, Option<(i64, i64)>) {
    match of {
        KeyOf::Exists { table, key } => (b'R', *table, 0, two(key.as_slice())),
        KeyOf::Column {
            table,
            key,
            element,
        } => (b'R', *table, *element, two(key.as_slice())),
        KeyOf::Index { element, values } => (b'X', *element, 0, two(values.as_slice())),
    }
}

/// One number and 0, or two numbers.
fn two(values: &[Value]) -> Option<(i64, i64)> {
    match values {
        [Value::Int(first)] => Some((*first, 0)),
        [Value::Int(first), Value::Int(second)] => Some((*first, *second)),
        _ => None,
    }
}

/// The encoding of a key.
fn encoded(alloc: Global, of: &KeyOf) -> Result<Bytes, AllocError> {
    match of {
        KeyOf::Exists { table, key } => exists_key(alloc, *table, key.as_slice()),
        KeyOf::Column {
            table,
            key,
            element,
        } => column_key(alloc, *table, key.as_slice(), *element),
        KeyOf::Index { element, values } => {
            let (value, key) = values.as_slice().split_at(values.len().min(1));
            index_key(alloc, *element, value, key)
        }
    }
}

/// What bytes are the key of, and whether that is encoded so.
type Read = Result<((u8, u32, u32, Option<(i64, i64)>), bool), KeyFault>;

fn key_read(alloc: Global, bytes: &[u8]) -> Read {
    let of = read_key(alloc, bytes)?;
    let again = encoded(alloc, &of)?;
    Ok((parts(&of), again.as_slice() == bytes))
}

/// The same, asked once more if memory was short.
fn key_reported(alloc: Global, bytes: &[u8]) -> Read {
    match key_read(alloc, bytes) {
        Err(KeyFault::Memory) => key_read(alloc, bytes),
        reported => reported,
    }
}

const KEYS: &[(&[u8], Read)] = &[
    (EXISTS, Ok(((b'R', 1, 0, Some((1, 0))), true))),
    (COLUMN, Ok(((b'R', 1, 1, Some((1, 0))), true))),
    (INDEX, Ok(((b'X', 2, 0, Some((5, 1))), true))),
    (NULL_ROW, Ok(((b'R', 1, 0, None), true))),
    (b"", Err(KeyFault::Short)),
    (b"\x52", Err(KeyFault::Short)),
    (b"\x51", Err(KeyFault::BadTag)),
    (b"\x52\0\0\0\x01", Err(KeyFault::Short)),
    (b"\x52\0\0\0\x01\x01\0\0\0", Err(KeyFault::Short)),
    (b"\x52\0\0\0\x01\x01\0\0\0\0\x09", Err(KeyFault::BadTag)),
    (
        b"\x52\0\0\0\x01\x01\x01\x01\x01\x01\0\0\0\0",
        Err(KeyFault::BadTag),
    ),
    (b"\x58\0\0\0\x02\x01", Err(KeyFault::BadTag)),
    (b"\x58\0\0\0\x02\x03a\0\x02", Err(KeyFault::BadEscape)),
    (b"\x58\0\0\0\x02\x03\xc3\0\x01", Err(KeyFault::NotUtf8)),
];

#[test]
fn under_refusal_keys_are_read_and_encoded_so(rt: HostRuntime) {
    assert!(rt; mark(&rt));
    for (bytes, want) in KEYS {
        assert!(rt; key_reported(rt.alloc(), bytes) == *want, "{bytes:?}");
    }
}

fn shape(alloc: Global) -> Result<TableShape, AllocError> {
    Ok(TableShape {
        number: 1,
        key: List::new(vec![in alloc; ColumnType::Int]?),
        columns: List::new(vec![in alloc; (1, ColumnType::Int)]?),
    })
}

/// The number of a row's key, the element of its cell and its number; noughts if it has not one of
/// each.
fn content(row: &Option<Row>) -> Option<(i64, u32, i64)> {
    match row {
        None => None,
        Some(row) => match (row.key.as_slice(), row.cells.as_slice()) {
            ([Value::Int(key)], [(element, Value::Int(number))]) => Some((*key, *element, *number)),
            _ => Some((0, 0, 0)),
        },
    }
}

fn pairs(alloc: Global, encoded: &[(&[u8], &[u8])]) -> Result<Vec<(Bytes, Bytes)>, AllocError> {
    let mut pairs = Vec::new(alloc);
    for (key, value) in encoded {
        let key = bytes(alloc, key)?;
        pairs.push((key, bytes(alloc, value)?))?;
    }
    Ok(pairs)
}

/// The key and the cell of a row, or what is wrong with its pairs.
type Encoded = Result<Option<(i64, u32, i64)>, ShapeFault>;

/// The row that these pairs encode.
fn row_read(alloc: Global, encoded: &[(&[u8], &[u8])]) -> Encoded {
    let pairs = pairs(alloc, encoded)?;
    let shape = shape(alloc)?;
    let row = row_from_pairs(alloc, &shape, pairs.as_slice())?;
    Ok(content(&row))
}

/// The same, asked once more if memory was short.
fn row_reported(alloc: Global, encoded: &[(&[u8], &[u8])]) -> Encoded {
    match row_read(alloc, encoded) {
        Err(ShapeFault::Memory) => row_read(alloc, encoded),
        reported => reported,
    }
}

const PAIRS: &[(&[(&[u8], &[u8])], Encoded)] = &[
    (&[(EXISTS, b""), (COLUMN, FIVE)], Ok(Some((1, 1, 5)))),
    (&[(COLUMN, FIVE)], Ok(None)),
    (&[(INDEX, b"")], Err(ShapeFault::WrongArity)),
    (&[(COLUMN, b"\x01")], Err(ShapeFault::WrongType)),
    (&[(EXISTS, b"\x01")], Err(ShapeFault::WrongType)),
    (&[(NULL_ROW, b"")], Err(ShapeFault::NullInKey)),
];

#[test]
fn under_refusal_rows_are_read_of_their_pairs(rt: HostRuntime) {
    assert!(rt; mark(&rt));
    for (encoded, want) in PAIRS {
        assert!(rt; row_reported(rt.alloc(), encoded) == *want, "{encoded:?}");
    }
}

/// The number that row 1 has in column `a` by these pairs, if it has a value there; 0 for a value
/// that is no number.
fn cell_in(alloc: Global, encoded: &[(&[u8], &[u8])]) -> Result<Option<i64>, AllocError> {
    let mut view = KeyMap::new(alloc);
    for (key, value) in encoded {
        let key = bytes(alloc, key)?;
        view.insert(key, bytes(alloc, value)?)?;
    }
    let key = vec![in alloc; Value::Int(1)]?;
    Ok(match read_cell(alloc, &view, 1, key.as_slice(), 1)? {
        None => None,
        Some(Value::Int(number)) => Some(number),
        Some(_) => Some(0),
    })
}

/// The same, asked once more if memory was short.
fn cell_reported(alloc: Global, encoded: &[(&[u8], &[u8])]) -> Result<Option<i64>, AllocError> {
    match cell_in(alloc, encoded) {
        Err(AllocError) => cell_in(alloc, encoded),
        reported => reported,
    }
}

const CELLS: &[(&[(&[u8], &[u8])], Option<i64>)] = &[
    (&[(EXISTS, b""), (COLUMN, FIVE)], Some(5)),
    (&[(COLUMN, FIVE)], Some(5)),
    (&[(EXISTS, b""), (INDEX, b"")], None),
    (&[(COLUMN, b"\x01")], Some(0)),
    (&[(COLUMN, b"")], None),
    (&[(COLUMN, b"\x02\x80\0\0\0\0\0\0\x05\x01")], None),
];

#[test]
fn under_refusal_cells_are_read(rt: HostRuntime) {
    assert!(rt; mark(&rt));
    for (encoded, want) in CELLS {
        assert!(rt;
            cell_reported(rt.alloc(), encoded) == Ok(*want),
            "{encoded:?}"
        );
    }
}
