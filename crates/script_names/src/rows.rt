//! The names of operations and queries, looked up in a version of the schema.
ghost use Rattle.std.specs.Prelude.{◌≡◌, IfOk};
ghost use mathlib.Core.List.{map};
ghost use Rattle.schema_version.specs.Version.{public_columns};
ghost use Rattle.script_names.specs.Names.{table_number, element_number, numbered, named_cells, resolved, resolved_all, column_numbers, looked_up, asked};

use collections::List;
use keycode::{Text, Value};
use row_query::{Cond, Query};
use row_write::{RowOp, RowOps};
use schema_version::Schema;
use script_grammar::{Condition, ElementName, Operation, Selection};
use std::alloc::{AllocError, Global};

/// The number of a table, or 0.
pub fn table_number(schema: &Schema, name: &Text) -> u32
    ensures { result ≡ table_number schema.now name.now }
{
    match schema.table(name.as_str()) {
        Some(number) => number,
        None => 0,
    }
}

/// The number of an element of the table, or 0.
pub fn element_number(schema: &Schema, table: u32, name: &Text) -> u32
    ensures { result ≡ element_number schema.now table name.now }
{
    match schema.by_name(table, name.as_str()) {
        Some(element) => element.number,
        None => 0,
    }
}

/// The number of the element of these names, or 0.
pub fn element_of(schema: &Schema, element: &ElementName) -> u32
    ensures { result ≡ numbered schema.now element.now }
{
    let table = table_number(schema, &element.table);
    element_number(schema, table, &element.name)
}

fn named_cells(
    alloc: Global,
    schema: &Schema,
    table: u32,
    sets: List<(Text, Value)>,
) -> Result<List<(u32, Value)>, AllocError>
    ensures { IfOk result (λ cells. cells ≡ named_cells schema.now table sets) }
{
    let sets = sets.into_vec();
    let mut cells = Vec::with_capacity(alloc, sets.len())?;
    for (name, value) in sets {
        cells.push((element_number(schema, table, &name), value))?;
    }
    Ok(List::new(cells))
}

// The same key, without room for more, since the log keeps it.
fn exact(key: List<Value>) -> List<Value>
    ensures { result ≡ key }
{
    let mut values = key.into_vec();
    values.shrink_to_fit();
    List::new(values)
}

fn resolve_operation(
    alloc: Global,
    schema: &Schema,
    operation: Operation,
) -> Result<RowOp, AllocError>
    ensures { IfOk result (λ op. op ≡ resolved schema.now operation) }
{
    match operation {
        Operation::Insert { table, key, sets } => {
            let table = table_number(schema, &table);
            let cells = named_cells(alloc, schema, table, sets)?;
            let key = exact(key);
            Ok(RowOp::Insert { table, key, cells })
        }
        Operation::Update { table, key, sets } => {
            let table = table_number(schema, &table);
            let cells = named_cells(alloc, schema, table, sets)?;
            let key = exact(key);
            Ok(RowOp::Update { table, key, cells })
        }
        Operation::Delete { table, key } => {
            let table = table_number(schema, &table);
            Ok(RowOp::Delete { table, key })
        }
    }
}

/// The operations with their names looked up. Refused only when out of memory.
pub fn resolved_all(
    alloc: Global,
    schema: &Schema,
    operations: List<Operation>,
) -> Result<RowOps, AllocError>
    ensures { IfOk result (λ ops. ops ≡ resolved_all schema.now operations) }
{
    let operations = operations.into_vec();
    let mut ops = Vec::with_capacity(alloc, operations.len())?;
    for operation in operations {
        let op = resolve_operation(alloc, schema, operation)?;
        ops.push(op)?;
    }
    Ok(List::new(ops))
}

fn all_columns(alloc: Global, schema: &Schema, table: u32) -> Result<Vec<u32>, AllocError>
    ensures { IfOk result (λ columns. columns.items ≡ map (λ e. e.number) (public_columns schema.now table)) }
{
    schema
        .elements()
        .iter()
        .filter(|e| e.is_public_column(table))
        .map(|e| e.number)
        .collect(alloc)
}

fn column_numbers(
    alloc: Global,
    schema: &Schema,
    table: u32,
    names: &Option<List<Text>>,
) -> Result<Vec<u32>, AllocError>
    ensures { IfOk result (λ columns. columns.items ≡ column_numbers schema.now table names.now) }
{
    match names {
        None => all_columns(alloc, schema, table),
        Some(names) => names
            .as_slice()
            .iter()
            .map(|name| element_number(schema, table, name))
            .collect(alloc),
    }
}

fn looked_up(schema: &Schema, table: u32, condition: Condition) -> Cond
    ensures { result ≡ looked_up schema.now table condition }
{
    match condition {
        Condition::Key(key) => Cond::Key(key),
        Condition::Equal { column, value } => {
            let column = element_number(schema, table, &column);
            Cond::Equal { column, value }
        }
        Condition::Between { column, low, high } => {
            let column = element_number(schema, table, &column);
            Cond::Between { column, low, high }
        }
    }
}

fn all_looked_up(
    alloc: Global,
    schema: &Schema,
    table: u32,
    conditions: List<Condition>,
) -> Result<Vec<Cond>, AllocError>
    ensures { IfOk result (λ conds. conds.items ≡ map (looked_up schema.now table) conditions) }
{
    let mut conds = Vec::new(alloc);
    for condition in conditions.into_vec() {
        conds.push(looked_up(schema, table, condition))?;
    }
    Ok(conds)
}

/// A selection with its names looked up. Refused only when out of memory.
pub fn asked(alloc: Global, schema: &Schema, selection: Selection) -> Result<Query, AllocError>
    ensures { IfOk result (λ query. query ≡ asked schema.now selection) }
{
    let Selection {
        table,
        columns,
        conditions,
    } = selection;
    let table = table_number(schema, &table);
    let columns = column_numbers(alloc, schema, table, &columns)?;
    let conditions = all_looked_up(alloc, schema, table, conditions)?;
    Ok(Query {
        table,
        columns: List::new(columns),
        conditions: List::new(conditions),
    })
}
