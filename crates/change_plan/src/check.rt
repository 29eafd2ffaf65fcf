//! The faults of one change, in their order.
ghost use Rattle.std.specs.Prelude.{◌≡◌, ◌+◌, ◌==◌, ◌&&◌, count_by, nat_lt};
ghost use Rattle.std.specs.List.{list_any};
ghost use Rattle.schema_version.specs.declared.element.ElementDef.{ElementDef as ElementDefinition};
ghost use Rattle.change_plan.specs.Batches.{named_index as named_index_of, named_column as named_column_of, drops_column as drops_column_of};
ghost use Rattle.change_plan.specs.Refusals.{adds_like as adds_like_of, is_addition as is_addition_of};
ghost use Rattle.change_plan.specs.inner.Checks.{lacks_column as lacks_column_of, is_taken as is_taken_of, is_in_change as is_in_change_of, still_lists as still_lists_of, is_listed as is_listed_of, is_over as is_over_of, add_index_check, drop_index_check, add_column_check, drop_column_check, abandon_check, change_check, batch_check};

use crate::change::Change;
use crate::changes::{
    adds_like, any_adds, any_adds_column, any_adds_index_on, any_drops, any_drops_column,
    any_drops_index, is_addition,
};
use crate::fault::PlanFault;
use crate::find::{lists, named_column, named_entering, named_index};
use keycode::Text;
use schema_version::{
    ElementDef, Kind, MAX_COLUMNS, MAX_ELEMENTS, MAX_INDEXES, Schema, elements_like, is_fair_kind,
    is_name, is_name_list,
};

// Whether the table has no live column of this name, and the batch adds none.
fn lacks_column(schema: &Schema, all: &[Change], table: u32, name: &Text) -> bool
    ensures { result ≡ lacks_column_of schema.now all.now table name.now }
{
    named_column(schema, table, name).is_none() && !any_adds_column(all, table, name)
}

// Whether the table lacks one of these columns.
fn any_lacking(schema: &Schema, all: &[Change], table: u32, columns: &[Text]) -> bool
    ensures { result ≡ list_any (lacks_column_of schema.now all.now table) columns.now }
{
    columns.iter().any(|c| lacks_column(schema, all, table, c))
}

// Whether the batch takes one of these columns out.
fn any_dropped(schema: &Schema, all: &[Change], table: u32, columns: &[Text]) -> bool
    ensures { result ≡ list_any (λ column. list_any (drops_column_of schema.now table column) all.now) columns.now }
{
    columns
        .iter()
        .any(|c| any_drops_column(schema, all, table, c))
}

// Whether a key column or a live element of the table has the name, or an earlier change adds it.
fn is_taken(schema: &Schema, earlier: &[Change], table: u32, name: &Text) -> bool
    ensures { result ≡ is_taken_of schema.now earlier.now table name.now }
{
    schema.has_key_column(table, name.as_bytes())
        || schema.by_name(table, name.as_str()).is_some()
        || any_adds(earlier, table, name)
}

fn is_index_in_change(schema: &Schema, table: u32, name: &Text) -> bool
    ensures { result ≡ is_in_change_of (named_index_of schema.now table name.now) }
{
    match named_index(schema, table, name) {
        Some(index) => !index.state.is_public(),
        None => false,
    }
}

fn is_column_in_change(schema: &Schema, table: u32, name: &Text) -> bool
    ensures { result ≡ is_in_change_of (named_column_of schema.now table name.now) }
{
    match named_column(schema, table, name) {
        Some(column) => !column.state.is_public(),
        None => false,
    }
}

// Whether one of these columns isn't public.
fn any_in_change(schema: &Schema, table: u32, columns: &[Text]) -> bool
    ensures { result ≡ list_any (λ column. is_in_change_of (named_column_of schema.now table column)) columns.now }
{
    columns
        .iter()
        .any(|c| is_column_in_change(schema, table, c))
}

// Whether this is an index that lists the column and that the batch doesn't drop.
fn still_lists(all: &[Change], column: u32, index: &ElementDef) -> bool
    ensures { result ≡ still_lists_of all.now column index.now }
{
    lists(index, column) && !any_drops_index(all, index.table, &index.name)
}

// Whether an index lists the column that stays or that the batch adds.
fn is_listed(schema: &Schema, all: &[Change], table: u32, name: &Text) -> bool
    ensures { result ≡ is_listed_of schema.now all.now table name.now (named_column_of schema.now table name.now) }
{
    match named_column(schema, table, name) {
        Some(column) => {
            any_still_lists(schema.elements(), all, column.number)
                || any_adds_index_on(all, table, name)
        }
        None => false,
    }
}

fn any_still_lists(elements: &[ElementDef], all: &[Change], column: u32) -> bool
    ensures { result ≡ list_any (still_lists_of all.now column) elements.now }
{
    elements.iter().any(|e| still_lists(all, column, e))
}

// How many indexes of the table the changes add, or else how many columns.
fn additions_like(changes: &[Change], table: u32, index: bool) -> usize
    ensures { result ≡ count_by (adds_like_of table index) changes.now }
{
    changes
        .iter()
        .filter(|c| adds_like(*c, table, index))
        .count()
}

fn additions(changes: &[Change]) -> usize
    ensures { result ≡ count_by is_addition_of changes.now }
{
    changes.iter().filter(|c| is_addition(*c)).count()
}

// Whether the batch brings the table over its count of indexes, or else of columns, or the schema
// over that of elements.
fn is_over(schema: &Schema, next: u32, all: &[Change], table: u32, index: bool) -> bool
    requires { next ≡ schema.now.next }
    ensures { result ≡ is_over_of schema.now all.now table index }
{
    let most = if index { MAX_INDEXES } else { MAX_COLUMNS };
    most < elements_like(schema.elements(), table, index) + additions_like(all, table, index)
        || MAX_ELEMENTS + 1 < next as usize + additions(all)
}

fn check_added_index(
    schema: &Schema,
    next: u32,
    all: &[Change],
    earlier: &[Change],
    table: u32,
    name: &Text,
    columns: &[Text],
) -> Result<(), PlanFault>
    requires { next ≡ schema.now.next }
    ensures { result ≡ add_index_check schema.now all.now earlier.now table name.now columns.now }
{
    if schema.table_name(table).is_none() || any_lacking(schema, all, table, columns) {
        return Err(PlanFault::Unknown);
    }
    if is_taken(schema, earlier, table, name) {
        return Err(PlanFault::NameTaken);
    }
    if any_dropped(schema, all, table, columns) {
        return Err(PlanFault::StillIndexed);
    }
    if any_in_change(schema, table, columns) {
        return Err(PlanFault::InChange);
    }
    if !is_name(name.as_bytes())
        || !is_name_list(columns)
        || is_over(schema, next, all, table, true)
    {
        return Err(PlanFault::Limit);
    }
    Ok(())
}

fn check_dropped_index(
    schema: &Schema,
    earlier: &[Change],
    table: u32,
    name: &Text,
) -> Result<(), PlanFault>
    ensures { result ≡ drop_index_check schema.now earlier.now table name.now }
{
    if named_index(schema, table, name).is_none() || any_drops(earlier, table, name) {
        return Err(PlanFault::Unknown);
    }
    if is_index_in_change(schema, table, name) {
        return Err(PlanFault::InChange);
    }
    Ok(())
}

fn check_added_column(
    schema: &Schema,
    next: u32,
    all: &[Change],
    earlier: &[Change],
    table: u32,
    name: &Text,
    kind: &Kind,
) -> Result<(), PlanFault>
    requires { next ≡ schema.now.next }
    ensures { result ≡ add_column_check schema.now all.now earlier.now table name.now kind.now }
{
    if schema.table_name(table).is_none() || kind.is_index() {
        return Err(PlanFault::Unknown);
    }
    if is_taken(schema, earlier, table, name) {
        return Err(PlanFault::NameTaken);
    }
    if !is_name(name.as_bytes())
        || !is_fair_kind(kind)
        || is_over(schema, next, all, table, false)
    {
        return Err(PlanFault::Limit);
    }
    Ok(())
}

fn check_dropped_column(
    schema: &Schema,
    all: &[Change],
    earlier: &[Change],
    table: u32,
    name: &Text,
) -> Result<(), PlanFault>
    ensures { result ≡ drop_column_check schema.now all.now earlier.now table name.now }
{
    if named_column(schema, table, name).is_none() || any_drops(earlier, table, name) {
        return Err(PlanFault::Unknown);
    }
    if is_listed(schema, all, table, name) {
        return Err(PlanFault::StillIndexed);
    }
    if is_column_in_change(schema, table, name) {
        return Err(PlanFault::InChange);
    }
    Ok(())
}

fn check_abandoned(
    schema: &Schema,
    all: &[Change],
    earlier: &[Change],
    table: u32,
    name: &Text,
) -> Result<(), PlanFault>
    ensures { result ≡ abandon_check schema.now all.now earlier.now table name.now }
{
    if named_entering(schema, table, name).is_none() || any_drops(earlier, table, name) {
        return Err(PlanFault::Unknown);
    }
    if is_listed(schema, all, table, name) {
        return Err(PlanFault::StillIndexed);
    }
    Ok(())
}

// Whether this change can be planned, after these earlier ones of the batch.
fn check_change(
    schema: &Schema,
    next: u32,
    all: &[Change],
    earlier: &[Change],
    change: &Change,
) -> Result<(), PlanFault>
    requires { next ≡ schema.now.next }
    ensures { result ≡ change_check schema.now all.now earlier.now change.now }
{
    match change {
        Change::AddIndex {
            table,
            name,
            columns,
        } => check_added_index(schema, next, all, earlier, *table, name, columns.as_slice()),
        Change::DropIndex { table, name } => check_dropped_index(schema, earlier, *table, name),
        Change::AddColumn { table, name, kind } => {
            check_added_column(schema, next, all, earlier, *table, name, kind)
        }
        Change::DropColumn { table, name } => {
            check_dropped_column(schema, all, earlier, *table, name)
        }
        Change::Abandon { table, name } => check_abandoned(schema, all, earlier, *table, name),
    }
}

/// Why the batch can't be planned: the first fault of its first faulty change.
pub(crate) fn check_batch(schema: &Schema, next: u32, changes: &[Change]) -> Result<(), PlanFault>
    requires { next ≡ schema.now.next }
    ensures { result ≡ batch_check schema.now changes.now }
{
    for (i, change) in changes.iter().enumerate() {
        check_change(schema, next, changes, &changes[..i], change)?;
    }
    Ok(())
}
