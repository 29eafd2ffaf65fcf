//! The names of changes, looked up in a version of the schema.
ghost use Rattle.std.specs.Prelude.{◌≡◌, IfOk};
ghost use Rattle.script_names.specs.Changes.{added, changed, changes_of};

use crate::kinds::column_kind;
use crate::rows::table_number;
use change_plan::Change;
use collections::List;
use schema_version::Schema;
use script_grammar::{ElementName, NamedChange, New};
use std::alloc::{AllocError, Global};

fn addition_of(schema: &Schema, fresh: New) -> Change
    ensures { result ≡ added schema.now fresh }
{
    match fresh {
        New::Index {
            name,
            table,
            columns,
        } => {
            let table = table_number(schema, &table);
            Change::AddIndex {
                table,
                name,
                columns,
            }
        }
        New::Column {
            name,
            column_type,
            fallback,
            table,
        } => {
            let table = table_number(schema, &table);
            let kind = column_kind(column_type, fallback);
            Change::AddColumn { table, name, kind }
        }
    }
}

fn change_of(schema: &Schema, change: NamedChange) -> Change
    ensures { result ≡ changed schema.now change }
{
    match change {
        NamedChange::Add(fresh) => addition_of(schema, fresh),
        NamedChange::DropIndex(ElementName { table, name }) => {
            let table = table_number(schema, &table);
            Change::DropIndex { table, name }
        }
        NamedChange::DropColumn(ElementName { table, name }) => {
            let table = table_number(schema, &table);
            Change::DropColumn { table, name }
        }
        NamedChange::Abandon(ElementName { table, name }) => {
            let table = table_number(schema, &table);
            Change::Abandon { table, name }
        }
    }
}

/// The changes of a plan, with their tables looked up; elements keep their names, which the batch
/// itself may add. Refused only when out of memory.
pub fn changes_of(
    alloc: Global,
    schema: &Schema,
    changes: List<NamedChange>,
) -> Result<Vec<Change>, AllocError>
    ensures { IfOk result (λ found. found.items ≡ changes_of schema.now changes) }
{
    let mut found = Vec::new(alloc);
    for change in changes.into_vec() {
        found.push(change_of(schema, change))?;
    }
    Ok(found)
}
