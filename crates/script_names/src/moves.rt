//! The names of moves, looked up in a version of the schema.
ghost use Rattle.std.specs.Prelude.{◌≡◌, IfOk};
ghost use Rattle.script_names.specs.Moves.{element_numbers, entered, moved, step_of};

use crate::kinds::column_kind;
use crate::rows::{element_number, element_of, table_number};
use collections::List;
use keycode::Text;
use schema_version::{Kind, Move, NewElement, Schema, Step};
use script_grammar::{NamedMove, New};
use std::alloc::{AllocError, Global};

fn element_numbers(
    alloc: Global,
    schema: &Schema,
    table: u32,
    names: &[Text],
) -> Result<Vec<u32>, AllocError>
    ensures { IfOk result (λ numbers. numbers.items ≡ element_numbers schema.now table names.now) }
{
    names
        .iter()
        .map(|name| element_number(schema, table, name))
        .collect(alloc)
}

fn entry_of(alloc: Global, schema: &Schema, fresh: New) -> Result<NewElement, AllocError>
    ensures { IfOk result (λ element. element ≡ entered schema.now fresh) }
{
    match fresh {
        New::Index {
            name,
            table,
            columns,
        } => {
            let table = table_number(schema, &table);
            let columns = element_numbers(alloc, schema, table, columns.as_slice())?;
            let kind = Kind::Index(List::new(columns));
            Ok(NewElement { table, name, kind })
        }
        New::Column {
            name,
            column_type,
            fallback,
            table,
        } => {
            let table = table_number(schema, &table);
            let kind = column_kind(column_type, fallback);
            Ok(NewElement { table, name, kind })
        }
    }
}

fn move_of(alloc: Global, schema: &Schema, named: NamedMove) -> Result<Move, AllocError>
    ensures { IfOk result (λ found. found ≡ moved schema.now named) }
{
    match named {
        NamedMove::Enter { fresh, to } => {
            let fresh = entry_of(alloc, schema, fresh)?;
            Ok(Move::Enter { fresh, to })
        }
        NamedMove::Go { element, to } => {
            let element = element_of(schema, &element);
            Ok(Move::Go { element, to })
        }
        NamedMove::Turn { element } => {
            let element = element_of(schema, &element);
            Ok(Move::Turn { element })
        }
    }
}

/// The moves of a step with their names looked up. Refused only when out of memory.
pub fn step_of(alloc: Global, schema: &Schema, moves: List<NamedMove>) -> Result<Step, AllocError>
    ensures { IfOk result (λ step. step ≡ step_of schema.now moves) }
{
    let mut step = Vec::new(alloc);
    for named in moves.into_vec() {
        let found = move_of(alloc, schema, named)?;
        step.push(found)?;
    }
    Ok(List::new(step))
}
