//! Table 1, named t, has the primary key `id` and the column `a`, both numbers. The index `i` on
//! `a`, which is element 2, enters, and beside it the index `j`, which is element 3.
use collections::List;
use keycode::Text;
use row_map::ColumnType;
use schema_version::{
    Columns, DeclareFault, ElementState, Kind, Move, NewElement, Schema, Step, TableDef,
};
use std::alloc::{AllocError, Global};

fn text(alloc: Global, content: &str) -> Result<Text, AllocError> {
    Ok(Text::new(String::from_str(alloc, content)?))
}

/// One column of numbers.
fn column(alloc: Global, name: &str) -> Result<Columns, AllocError> {
    let name = text(alloc, name)?;
    Ok(List::new(vec![in alloc; (name, ColumnType::Int)]?))
}

/// The schema without the index.
fn declared(alloc: Global) -> Result<Schema, AllocError> {
    let table = TableDef {
        name: text(alloc, "t")?,
        key: column(alloc, "id")?,
        columns: column(alloc, "a")?,
        indexes: List::new(Vec::new(alloc)),
    };
    let tables = vec![in alloc; table]?;
    match Schema::declared(alloc, tables.as_slice()) {
        Ok(schema) => Ok(schema),
        Err(DeclareFault::BadTable | DeclareFault::Memory) => Err(AllocError),
    }
}

/// An index on `a`.
fn index(alloc: Global, name: &str) -> Result<NewElement, AllocError> {
    let a = 1u32;
    Ok(NewElement {
        table: 1,
        name: text(alloc, name)?,
        kind: Kind::Index(List::new(vec![in alloc; a]?)),
    })
}

/// The move that brings an index to a state.
fn change(alloc: Global, name: &str, element: u32, to: ElementState) -> Result<Move, AllocError> {
    Ok(match to {
        ElementState::DeleteOnly => Move::Enter {
            fresh: index(alloc, name)?,
            to,
        },
        _ => Move::Go { element, to },
    })
}

/// The step that brings the index `i` to a state.
pub fn step(alloc: Global, to: ElementState) -> Result<Step, AllocError> {
    let change = change(alloc, "i", 2, to)?;
    Ok(List::new(vec![in alloc; change]?))
}

/// The step that brings both indexes to a state.
fn step_of_two(alloc: Global, to: ElementState) -> Result<Step, AllocError> {
    let first = change(alloc, "i", 2, to)?;
    let second = change(alloc, "j", 3, to)?;
    Ok(List::new(vec![in alloc; first, second]?))
}

/// The schema after these steps.
pub fn stepped(alloc: Global, states: &[ElementState]) -> Result<Schema, AllocError> {
    let mut schema = declared(alloc)?;
    for to in states {
        schema = match schema.apply(&step(alloc, *to)?) {
            Ok(next) => next,
            Err(_) => return Err(AllocError),
        };
    }
    Ok(schema)
}

/// The schema after steps that bring both indexes to these states.
pub fn two_stepped(alloc: Global, states: &[ElementState]) -> Result<Schema, AllocError> {
    let mut schema = declared(alloc)?;
    for to in states {
        schema = match schema.apply(&step_of_two(alloc, *to)?) {
            Ok(next) => next,
            Err(_) => return Err(AllocError),
        };
    }
    Ok(schema)
}
