//! Looking for the elements that a change names.
ghost use Rattle.std.specs.Prelude.{◌≡◌};
ghost use Rattle.std.specs.Option.{option_copied};
ghost use Rattle.change_plan.specs.Batches.{named_index as named_index_of, named_column as named_column_of, is_entering as is_entering_of, named_entering as named_entering_of, dropped_element as leaving_of, lists as lists_of};

use crate::change::Change;
use keycode::Text;
use schema_version::{ElementDef, Kind, Schema, Way};

/// The table's live index of this name.
pub(crate) fn named_index<'a>(schema: &'a Schema, table: u32, name: &Text) -> Option<&'a ElementDef>
    ensures { option_copied result ≡ named_index_of schema.now table name.now }
{
    let element = schema.by_name(table, name.as_str())?;
    if element.kind.is_index() {
        Some(element)
    } else {
        None
    }
}

/// The table's live column of this name.
pub(crate) fn named_column<'a>(
    schema: &'a Schema,
    table: u32,
    name: &Text,
) -> Option<&'a ElementDef>
    ensures { option_copied result ≡ named_column_of schema.now table name.now }
{
    let element = schema.by_name(table, name.as_str())?;
    if element.kind.is_column() {
        Some(element)
    } else {
        None
    }
}

// Whether the element is being added and isn't public yet.
fn is_entering(element: &ElementDef) -> bool
    ensures { result ≡ is_entering_of element.now }
{
    match element.way {
        Way::Adding => !element.state.is_public(),
        Way::Dropping => false,
    }
}

/// The table's live element of this name, if it is being added and isn't public yet.
pub(crate) fn named_entering<'a>(
    schema: &'a Schema,
    table: u32,
    name: &Text,
) -> Option<&'a ElementDef>
    ensures { option_copied result ≡ named_entering_of schema.now table name.now }
{
    let element = schema.by_name(table, name.as_str())?;
    if is_entering(element) {
        Some(element)
    } else {
        None
    }
}

/// The live element that the change takes out, if it is there.
pub(crate) fn dropped_element<'a>(schema: &'a Schema, change: &Change) -> Option<&'a ElementDef>
    ensures { option_copied result ≡ leaving_of schema.now change.now }
{
    match change {
        Change::DropIndex { table, name } => named_index(schema, *table, name),
        Change::DropColumn { table, name } => named_column(schema, *table, name),
        Change::Abandon { table, name } => named_entering(schema, *table, name),
        Change::AddIndex { .. } | Change::AddColumn { .. } => None,
    }
}

/// Whether the element is an index that lists the column of this number.
pub(crate) fn lists(element: &ElementDef, column: u32) -> bool
    ensures { result ≡ lists_of column element.now }
{
    match &element.kind {
        Kind::Index(columns) => columns.as_slice().iter().any(|c| *c == column),
        Kind::Optional(_) | Kind::Required { .. } => false,
    }
}
