//! Table 1, named t, has the primary key `id` and the column `a`, which is element 1, both numbers,
//! and the index `i` on `a`, which is element 2. If it is asked for, the required column `r`
//! enters, numbers with the default 5, as element 3. The key of a row's pair is 52, the table, the
//! primary key and the element, or 0 for the `exists` pair; that of an index's pair is 58, the
//! element, the value and the primary key. A number is 02 and its eight bytes with the highest bit
//! flipped, Null is 01.
use byte_map::{Bytes, KeyMap};
use checkpoint_check::{CheckpointFault, check};
use collections::List;
use keycode::{Text, Value};
use lease::Timeline;
use reorganise::{Progress, Span, Work};
use row_map::ColumnType;
use schema_version::{Columns, ElementState, Kind, Move, NewElement, Schema, TableDef};
use std::alloc::{AllocError, Global};

/// The keys of the `exists` pairs of the rows 1 and 2.
pub const ROW_1: &[u8] = b"\x52\0\0\0\x01\x02\x80\0\0\0\0\0\0\x01\0\0\0\0";

pub const ROW_2: &[u8] = b"\x52\0\0\0\x01\x02\x80\0\0\0\0\0\0\x02\0\0\0\0";
/// The keys of the pairs of `a` in these rows.
pub const A_1: &[u8] = b"\x52\0\0\0\x01\x02\x80\0\0\0\0\0\0\x01\0\0\0\x01";

pub const A_2: &[u8] = b"\x52\0\0\0\x01\x02\x80\0\0\0\0\0\0\x02\0\0\0\x01";
/// The keys of the pairs of `r` in these rows.
pub const R_1: &[u8] = b"\x52\0\0\0\x01\x02\x80\0\0\0\0\0\0\x01\0\0\0\x03";

pub const R_2: &[u8] = b"\x52\0\0\0\x01\x02\x80\0\0\0\0\0\0\x02\0\0\0\x03";
/// The keys of the index's pairs, by the value and the row.
pub const I_5_1: &[u8] = b"\x58\0\0\0\x02\x02\x80\0\0\0\0\0\0\x05\x02\x80\0\0\0\0\0\0\x01";

pub const I_6_2: &[u8] = b"\x58\0\0\0\x02\x02\x80\0\0\0\0\0\0\x06\x02\x80\0\0\0\0\0\0\x02";
/// The same without a value.
pub const I_NULL_1: &[u8] = b"\x58\0\0\0\x02\x01\x02\x80\0\0\0\0\0\0\x01";
/// Where the keys of the table's rows begin and end.
pub const FRONT: &[u8] = b"\x52\0\0\0\x01";

pub const TAIL: &[u8] = b"\x52\0\0\0\x02";
/// The values 5 and 6, and no byte.
pub const FIVE: &[u8] = b"\x02\x80\0\0\0\0\0\0\x05";

pub const SIX: &[u8] = b"\x02\x80\0\0\0\0\0\0\x06";

pub const EMPTY: &[u8] = b"";

/// Prints the line from which on the step for refusals counts allocations.
pub fn mark<R: Print>(rt: &R) -> bool {
    rt.println("from here on").is_ok()
}

/// Pairs of a store.
pub type Pairs<'a> = &'a [(&'a [u8], &'a [u8])];

/// How old a checkpoint is, and which version before the newest it comes with.
#[derive(Clone, Copy, PartialEq, Eq)]
pub enum Age {
    /// Five after the last publication: a lease on the version before may be in force.
    BothInUse,
    /// A lease length after it: none may.
    NewestAlone,
    /// One before it.
    Early,
    /// Five after it, with no version before if there was one, and with one if there was none.
    OneLost,
    /// Five after it, with the version two before the newest.
    OneSkipped,
}

fn text(alloc: Global, content: &str) -> Result<Text, AllocError> {
    Ok(Text::new(String::from_str(alloc, content)?))
}

fn bytes(alloc: Global, content: &[u8]) -> Result<Bytes, AllocError> {
    Bytes::new(Vec::from_slice(alloc, content)?)
}

/// A store of these pairs.
fn store(alloc: Global, pairs: Pairs) -> Result<KeyMap<Bytes>, AllocError> {
    let mut store = KeyMap::new(alloc);
    for (key, value) in pairs {
        store.insert(bytes(alloc, key)?, bytes(alloc, value)?)?;
    }
    Ok(store)
}

/// One column of numbers.
fn column(alloc: Global, name: &str) -> Result<Columns, AllocError> {
    let name = text(alloc, name)?;
    Ok(List::new(vec![in alloc; (name, ColumnType::Int)]?))
}

/// The index `i` on `a`.
fn indexes(alloc: Global) -> Result<List<(Text, List<Text>)>, AllocError> {
    let a = text(alloc, "a")?;
    let columns = List::new(vec![in alloc; a]?);
    let name = text(alloc, "i")?;
    Ok(List::new(vec![in alloc; (name, columns)]?))
}

fn table(alloc: Global) -> Result<TableDef, AllocError> {
    let name = text(alloc, "t")?;
    let key = column(alloc, "id")?;
    let columns = column(alloc, "a")?;
    let indexes = indexes(alloc)?;
    Ok(TableDef {
        name,
        key,
        columns,
        indexes,
    })
}

/// The schema with that table, its elements public.
fn declared(alloc: Global) -> Result<Schema, AllocError> {
    let table = table(alloc)?;
    let tables = vec![in alloc; table]?;
    match Schema::declared(alloc, tables.as_slice()) {
        Ok(schema) => Ok(schema),
        Err(_) => Err(AllocError),
    }
}

fn after(alloc: Global, schema: &Schema, a: Move) -> Result<Schema, AllocError> {
    let step = List::new(vec![in alloc; a]?);
    match schema.apply(&step) {
        Ok(schema) => Ok(schema),
        Err(_) => Err(AllocError),
    }
}

/// The schema with `r` too, delete-only.
fn entered(alloc: Global) -> Result<Schema, AllocError> {
    let fresh = NewElement {
        table: 1,
        name: text(alloc, "r")?,
        kind: Kind::Required {
            column: ColumnType::Int,
            fallback: Value::Int(5),
        },
    };
    let to = ElementState::DeleteOnly;
    after(alloc, &declared(alloc)?, Move::Enter { fresh, to })
}

/// The same with an element in the last of these states, which it goes through: the index, or `r`,
/// which enters first.
fn stepped(alloc: Global, element: u32, states: &[ElementState]) -> Result<Schema, AllocError> {
    let mut schema = if element == 3 {
        entered(alloc)?
    } else {
        declared(alloc)?
    };
    for to in states {
        schema = after(alloc, &schema, Move::Go { element, to: *to })?;
    }
    Ok(schema)
}

/// A timeline of leases of 10 moments, with publications at 0, 100, 200 and so on.
fn published(alloc: Global, count: usize) -> Result<Timeline, AllocError> {
    let Ok(mut line) = Timeline::new(alloc, 10) else {
        return Err(AllocError);
    };
    let mut last = 0u64;
    for _i in 0..count {
        last = last.saturating_add(100);
        if last > 1000 || line.may_publish(last).is_err() {
            return Err(AllocError);
        }
        line.publish(last)?;
    }
    Ok(line)
}

/// A begun reorganisation of an element, in one piece that has come to this cursor.
fn begun_at(
    alloc: Global,
    schema: &Schema,
    element: u32,
    kind: Work,
    cursor: &[u8],
    store: &KeyMap<Bytes>,
) -> Result<Progress, AllocError> {
    let Some(definition) = schema.element(element) else {
        return Err(AllocError);
    };
    let mut progress = Progress::begin(alloc, definition.clone()?, kind, store, 1)?;
    progress.move_cursor(alloc, 0, bytes(alloc, cursor)?);
    Ok(progress)
}

/// What has begun on an element.
fn all_begun(
    alloc: Global,
    schema: &Schema,
    element: u32,
    works: &[(Work, &[u8])],
    store: &KeyMap<Bytes>,
) -> Result<Vec<Progress>, AllocError> {
    let mut begun = Vec::new(alloc);
    for (kind, cursor) in works {
        begun.push(begun_at(alloc, schema, element, *kind, cursor, store)?)?;
    }
    Ok(begun)
}

fn tested(
    alloc: Global,
    element: u32,
    states: &[ElementState],
    age: Age,
    works: &[(Work, &[u8])],
    pairs: Pairs,
) -> Result<(), CheckpointFault> {
    let view = store(alloc, pairs)?;
    let newest = stepped(alloc, element, states)?;
    let back = if age == Age::OneSkipped { 2 } else { 1 };
    let before = stepped(alloc, element, &states[..states.len().saturating_sub(back)])?;
    let line = published(alloc, states.len())?;
    let last = line.last_publication();
    let moment = match age {
        Age::Early => last.saturating_sub(1),
        Age::NewestAlone => last.saturating_add(10),
        _ => last.saturating_add(5),
    };
    let begun = all_begun(alloc, &newest, element, works, &view)?;
    let is_there = states.is_empty() == (age == Age::OneLost);
    let old = if is_there { Some(&before) } else { None };
    check(alloc, moment, &line, &newest, old, begun.as_slice(), &view)
}

/// The answer for a checkpoint of these parts, asked once more if there was no memory for it.
pub fn tested_at_last(
    alloc: Global,
    element: u32,
    states: &[ElementState],
    age: Age,
    works: &[(Work, &[u8])],
    pairs: Pairs,
) -> Result<(), CheckpointFault> {
    match tested(alloc, element, states, age, works, pairs) {
        Err(CheckpointFault::Memory) => tested(alloc, element, states, age, works, pairs),
        answer => answer,
    }
}
