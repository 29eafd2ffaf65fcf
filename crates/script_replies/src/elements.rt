//! The elements of a version as JSON.
ghost use Rattle.std.specs.Prelude.{◌≡◌, IfOk};
ghost use Rattle.serde_json.specs.View.{view};
ghost use Rattle.script_replies.specs.Status.{element_data, elements_data, name_or_empty, way_word};
ghost use Rattle.schema_version.specs.Version.{table_at};

use schema_version::{ElementDef, Schema, Way};
use script_grammar::state_word;
use serde_json::{Value, json};
use std::alloc::{AllocError, Global};

fn way_word(way: Way) -> &'static str
    ensures { result.now ≡ way_word way }
{
    match way {
        Way::Adding => "adding",
        Way::Dropping => "dropping",
    }
}

fn name_or_empty(schema: &Schema, table: u32) -> &str
    ensures { result.now ≡ name_or_empty (table_at schema.now table) }
{
    match schema.table_name(table) {
        Some(name) => name,
        None => "",
    }
}

fn element_value(alloc: Global, schema: &Schema, element: &ElementDef) -> Result<Value, AllocError>
    ensures { IfOk result (λ value. view value ≡ element_data schema.now element.now) }
{
    let name = element.name.as_str();
    let state = state_word(element.state);
    let table = name_or_empty(schema, element.table);
    let way = way_word(element.way);
    json!(in alloc; {"name": name, "number": element.number, "state": state, "table": table, "way": way})
}

/// All live elements of a version, by rising number. Refused only when out of memory.
pub(crate) fn elements_value(alloc: Global, schema: &Schema) -> Result<Value, AllocError>
    ensures { IfOk result (λ value. view value ≡ elements_data schema.now) }
{
    let mut values = Vec::new(alloc);
    for element in schema.elements() {
        let value = element_value(alloc, schema, element)?;
        values.push(value)?;
    }
    Ok(Value::Array(values))
}
