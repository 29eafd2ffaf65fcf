//! An element of any kind.
ghost use Rattle.std.specs.Prelude.{◌≡◌, IfOk};
ghost use mathlib.Core.List.{map as each};
ghost use Rattle.keycode.specs.declared.value.Value.TheVariants.{Null};
ghost use Rattle.element_state.specs.Sources.{source_with, source_in, source_alone, default_value_at};
ghost use Rattle.element_state.specs.Kinds.{kind_meaning, table_of_any, meaning_of_any, IsLawfulElement, laws_of_any, clear_of_any, clears_of_any};

use crate::column::OptionalColumn;
use crate::element::Element;
use crate::index::IndexElement;
use crate::required::RequiredColumn;
use byte_map::Bytes;
use collections::List;
use keycode::Value;
use row_map::{Batch, Row};
use schema_version::{ElementDef, ElementState, Kind, Schema};
use std::alloc::{AllocError, Global};

/// An element of any kind. A new kind is one more variant here, with its arm in each call.
#[derive(Drop)]
pub enum AnyElement {
    /// A secondary index.
    Index(IndexElement),
    /// A column that a row may have no value in.
    Optional(OptionalColumn),
    /// A column with a default.
    Required(RequiredColumn),
}

// The default in a version for a value that a row lacks in a column.
fn default_value(schema: &Schema, column: u32) -> Result<Value, AllocError>
    ensures { IfOk result (λ value. value ≡ default_value_at schema.now column) }
{
    match schema.element(column) {
        Some(element) => match &element.kind {
            Kind::Required { fallback, .. } => fallback.clone(),
            Kind::Index(_) | Kind::Optional(_) => Ok(Value::Null),
        },
        None => Ok(Value::Null),
    }
}

fn with_default_value(schema: &Schema, column: u32) -> Result<(u32, Value), AllocError>
    ensures { IfOk result (λ list. list ≡ (column, default_value_at schema.now column)) }
{
    Ok((column, default_value(schema, column)?))
}

// Columns with what stands for a missing value in a version.
fn with_default_values(
    alloc: Global,
    schema: &Schema,
    columns: &[u32],
) -> Result<List<(u32, Value)>, AllocError>
    ensures { IfOk result (λ list. list ≡ each (λ c. (c, default_value_at schema.now c)) columns.now) }
{
    let mut list = Vec::new(alloc);
    for column in columns {
        list.push(with_default_value(schema, *column)?)?;
    }
    Ok(List::new(list))
}

fn with_null(column: u32) -> (u32, Value)
    ensures { result ≡ (column, Null) }
{
    (column, Value::Null)
}

// Columns of which each row has a value, or Null stands for it.
fn with_nulls(alloc: Global, columns: &[u32]) -> Result<List<(u32, Value)>, AllocError>
    ensures { IfOk result (λ list. list ≡ each (λ c. (c, Null)) columns.now) }
{
    let mut list = Vec::new(alloc);
    for column in columns {
        list.push(with_null(*column))?;
    }
    Ok(List::new(list))
}

impl AnyElement {
    // The element, if these are the columns that it lists.
    fn with(definition: &ElementDef, columns: List<(u32, Value)>) -> Result<AnyElement, AllocError>
        ensures table { IfOk result (λ e. table_of_any e ≡ definition.now.table) }
        ensures meaning { IfOk result (λ e. meaning_of_any e ≡ kind_meaning definition.now.number (source_with columns definition.now.kind)) }
    {
        let table = definition.table;
        let number = definition.number;
        match &definition.kind {
            Kind::Index(_) => Ok(AnyElement::Index(IndexElement {
                table,
                number,
                columns,
            })),
            Kind::Optional(_) => Ok(AnyElement::Optional(OptionalColumn { table, number })),
            Kind::Required { fallback, .. } => Ok(AnyElement::Required(RequiredColumn {
                table,
                number,
                fallback: fallback.clone()?,
            })),
        }
    }

    /// The element that a version defines: of its table, its number and its kind. For a value that
    /// a row lacks in a column that an index lists stands the column's default in that version, or
    /// Null.
    ///
    /// `alloc` is where the list of an index's columns is made. Running out of memory is the only
    /// refusal.
    pub fn of(
        alloc: Global,
        schema: &Schema,
        definition: &ElementDef,
    ) -> Result<AnyElement, AllocError>
        ensures table { IfOk result (λ e. table_of_any e ≡ definition.now.table) }
        ensures meaning { IfOk result (λ e. meaning_of_any e ≡ kind_meaning definition.now.number (source_in schema.now definition.now.kind)) }
    {
        let columns = with_default_values(alloc, schema, definition.kind.indexed_columns())?;
        AnyElement::with(definition, columns)
    }

    /// The element of a definition by itself, for rows that have a value in each required column:
    /// in any other column that an index lists, Null stands for a value that a row lacks.
    ///
    /// `alloc` is where the list of an index's columns is made. Running out of memory is the only
    /// refusal.
    pub fn alone(alloc: Global, definition: &ElementDef) -> Result<AnyElement, AllocError>
        ensures table { IfOk result (λ e. table_of_any e ≡ definition.now.table) }
        ensures meaning { IfOk result (λ e. meaning_of_any e ≡ kind_meaning definition.now.number (source_alone definition.now.kind)) }
    {
        let columns = with_nulls(alloc, definition.kind.indexed_columns())?;
        AnyElement::with(definition, columns)
    }
}

impl Element for AnyElement {
    ghost table = { table_of_any };

    ghost meaning = { meaning_of_any };

    ghost clear = { clear_of_any };

    ghost lawful = { IsLawfulElement };

    ghost laws = { laws_of_any };

    ghost clears = { clears_of_any };

    fn number(&self) -> u32 {
        match self {
            AnyElement::Index(e) => e.number(),
            AnyElement::Optional(e) => e.number(),
            AnyElement::Required(e) => e.number(),
        }
    }

    fn on_insert(
        &self,
        alloc: Global,
        state: ElementState,
        row: &Row,
        batch: &mut Batch,
    ) -> Result<(), AllocError> {
        match self {
            AnyElement::Index(e) => e.on_insert(alloc, state, row, batch),
            AnyElement::Optional(e) => e.on_insert(alloc, state, row, batch),
            AnyElement::Required(e) => e.on_insert(alloc, state, row, batch),
        }
    }

    fn on_update(
        &self,
        alloc: Global,
        state: ElementState,
        old: &Row,
        new: &Row,
        batch: &mut Batch,
    ) -> Result<(), AllocError> {
        match self {
            AnyElement::Index(e) => e.on_update(alloc, state, old, new, batch),
            AnyElement::Optional(e) => e.on_update(alloc, state, old, new, batch),
            AnyElement::Required(e) => e.on_update(alloc, state, old, new, batch),
        }
    }

    fn on_delete(
        &self,
        alloc: Global,
        state: ElementState,
        row: &Row,
        batch: &mut Batch,
    ) -> Result<(), AllocError> {
        match self {
            AnyElement::Index(e) => e.on_delete(alloc, state, row, batch),
            AnyElement::Optional(e) => e.on_delete(alloc, state, row, batch),
            AnyElement::Required(e) => e.on_delete(alloc, state, row, batch),
        }
    }

    fn fill_of(&self, alloc: Global, row: &Row) -> Result<Option<(Bytes, Bytes)>, AllocError> {
        match self {
            AnyElement::Index(e) => e.fill_of(alloc, row),
            AnyElement::Optional(e) => e.fill_of(alloc, row),
            AnyElement::Required(e) => e.fill_of(alloc, row),
        }
    }
}
