//! The tables of the newest version as JSON.
use crate::elements::put_element;
use crate::object::{Object, list_object, put_list, put_number, put_text};
use keycode::Text;
use row_map::ColumnType;
use schema_version::{MAX_TABLES, Schema};
use script_progress::world::World;
use script_rows::script_views::type_word;
use serde_json::{Map, Value};
use std::alloc::{AllocError, Global};

fn key_column(alloc: Global, name: &Text, column_type: ColumnType) -> Result<Value, AllocError> {
    let mut out = Map::new(alloc);
    put_text(alloc, &mut out, "name", name.as_str())?;
    put_text(alloc, &mut out, "type", type_word(column_type))?;
    Ok(Value::Object(out))
}

fn key_columns(alloc: Global, schema: &Schema, table: u32) -> Result<Vec<Value>, AllocError> {
    let mut columns = Vec::new(alloc);
    for (name, column_type) in schema.key_of(table).unwrap_or(&[]) {
        columns.push(key_column(alloc, name, *column_type)?)?;
    }
    Ok(columns)
}

fn elements_of(alloc: Global, world: &World, table: u32) -> Result<Vec<Value>, AllocError> {
    let mut elements = Vec::new(alloc);
    for element in world.newest().get().elements() {
        if element.table == table {
            let mut out = Map::new(alloc);
            put_element(alloc, &mut out, world, element)?;
            elements.push(Value::Object(out))?;
        }
    }
    Ok(elements)
}

fn put_table(
    alloc: Global,
    out: &mut Object,
    world: &World,
    number: u32,
    name: &str,
) -> Result<(), AllocError> {
    put_text(alloc, out, "name", name)?;
    put_number(alloc, out, "number", u64::from(number))?;
    let key = key_columns(alloc, world.newest().get(), number)?;
    put_list(alloc, out, "key", key)?;
    let elements = elements_of(alloc, world, number)?;
    put_list(alloc, out, "elements", elements)
}

// Adds the table of this number, if there is one.
fn push_table(
    alloc: Global,
    tables: &mut Vec<Value>,
    world: &World,
    number: u32,
) -> Result<(), AllocError> {
    let Some(name) = world.newest().get().table_name(number) else {
        return Ok(());
    };
    let mut out = Map::new(alloc);
    put_table(alloc, &mut out, world, number, name)?;
    tables.push(Value::Object(out))?;
    Ok(())
}

fn push_tables(alloc: Global, tables: &mut Vec<Value>, world: &World) -> Result<(), AllocError> {
    for number in 1..=MAX_TABLES as u32 {
        push_table(alloc, tables, world, number)?;
    }
    Ok(())
}

/// The tables of the newest version: `{"tables": [..]}`, each with `name`, `number`, `key` (its columns
/// with `name` and `type`) and `elements`. Refused only when out of memory.
///
/// - `world`: the world.
/// - `table`: the name of the only table that is wanted; all tables if it is empty. There is none in the
///   list if there is no such table.
pub(crate) fn tables_value(alloc: Global, world: &World, table: &str) -> Result<Value, AllocError> {
    let mut tables = Vec::new(alloc);
    if table.is_empty() {
        push_tables(alloc, &mut tables, world)?;
    } else if let Some(number) = world.newest().get().table(table) {
        push_table(alloc, &mut tables, world, number)?;
    }
    list_object(alloc, "tables", tables)
}
