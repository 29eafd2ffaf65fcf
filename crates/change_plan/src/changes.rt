//! Looking for changes of a batch by table and name.
ghost use Rattle.std.specs.Prelude.{◌≡◌, ◌&&◌, ◌==◌, bytes_eq};
ghost use Rattle.std.specs.List.{list_any};
ghost use Rattle.change_plan.specs.Batches.{place_of, is_of as is_of_of, adds_column as adds_column_of, adds as adds_of, drops as drops_of, drops_index as drops_index_of, drops_column as drops_column_of};
ghost use Rattle.change_plan.specs.Refusals.{adds_like as adds_like_of, is_addition as is_addition_of};
ghost use Rattle.change_plan.specs.inner.Checks.{adds_index_on as adds_index_on_of};
ghost use Rattle.change_plan.specs.Schedule.{steps_to as steps_to_of, steps_until as steps_until_of, wait_in as wait_in_of, enters_at as enters_at_of, enters_before as enters_before_of};

use crate::change::Change;
use crate::find::named_column;
use crate::schedule::{state_path_in, steps};
use keycode::Text;
use schema_version::Schema;

// The table and the name that the change is of.
fn place(change: &Change) -> (u32, &Text)
    ensures { (result.0, result.1.now) ≡ place_of change.now }
{
    match change {
        Change::AddIndex { table, name, .. } => (*table, name),
        Change::DropIndex { table, name } => (*table, name),
        Change::AddColumn { table, name, .. } => (*table, name),
        Change::DropColumn { table, name } => (*table, name),
        Change::Abandon { table, name } => (*table, name),
    }
}

// Whether the change is of the table's element of this name.
fn is_of(change: &Change, table: u32, name: &Text) -> bool
    ensures { result ≡ is_of_of table name.now change.now }
{
    let (other, own) = place(change);
    table == other && name.as_bytes() == own.as_bytes()
}

/// Whether the change adds the table's column of this name.
pub(crate) fn adds_column(change: &Change, table: u32, name: &Text) -> bool
    ensures { result ≡ adds_column_of table name.now change.now }
{
    match change {
        Change::AddColumn { .. } => is_of(change, table, name),
        _ => false,
    }
}

// Whether the change adds an element of this name to the table.
fn adds(change: &Change, table: u32, name: &Text) -> bool
    ensures { result ≡ adds_of table name.now change.now }
{
    match change {
        Change::AddIndex { .. } | Change::AddColumn { .. } => is_of(change, table, name),
        _ => false,
    }
}

// Whether the change takes an element of this name out of the table.
fn drops(change: &Change, table: u32, name: &Text) -> bool
    ensures { result ≡ drops_of table name.now change.now }
{
    match change {
        Change::DropIndex { .. } | Change::DropColumn { .. } | Change::Abandon { .. } => {
            is_of(change, table, name)
        }
        _ => false,
    }
}

// Whether the change takes the table's index of this name out. Its elements have names of their
// own.
fn drops_index(change: &Change, table: u32, name: &Text) -> bool
    ensures { result ≡ drops_index_of table name.now change.now }
{
    match change {
        Change::DropIndex { .. } | Change::Abandon { .. } => is_of(change, table, name),
        _ => false,
    }
}

// Whether the change takes the table's column of this name out.
fn drops_column(schema: &Schema, change: &Change, table: u32, name: &Text) -> bool
    ensures { result ≡ drops_column_of schema.now table name.now change.now }
{
    match change {
        Change::DropColumn { .. } => is_of(change, table, name),
        Change::Abandon { .. } => {
            is_of(change, table, name) && named_column(schema, table, name).is_some()
        }
        _ => false,
    }
}

fn any_named(names: &[Text], name: &Text) -> bool
    ensures { result ≡ list_any (λ other. bytes_eq other name.now) names.now }
{
    names
        .iter()
        .any(|other| other.as_bytes() == name.as_bytes())
}

// Whether the change adds an index that lists the table's column of this name.
fn adds_index_on(change: &Change, table: u32, name: &Text) -> bool
    ensures { result ≡ adds_index_on_of table name.now change.now }
{
    match change {
        Change::AddIndex {
            table: other,
            columns,
            ..
        } => *other == table && any_named(columns.as_slice(), name),
        _ => false,
    }
}

/// Whether the change adds an index of the table, or else a column of it.
pub(crate) fn adds_like(change: &Change, table: u32, index: bool) -> bool
    ensures { result ≡ adds_like_of table index change.now }
{
    match change {
        Change::AddIndex { table: other, .. } => *other == table && index,
        Change::AddColumn {
            table: other,
            kind,
            ..
        } => *other == table && kind.is_like(index),
        _ => false,
    }
}

/// Whether the change adds an element.
pub(crate) fn is_addition(change: &Change) -> bool
    ensures { result ≡ is_addition_of change.now }
{
    matches!(change, Change::AddIndex { .. } | Change::AddColumn { .. })
}

/// Whether one of these adds the table's column of this name.
pub(crate) fn any_adds_column(changes: &[Change], table: u32, name: &Text) -> bool
    ensures { result ≡ list_any (adds_column_of table name.now) changes.now }
{
    changes.iter().any(|c| adds_column(c, table, name))
}

/// Whether one of these adds an element of this name to the table.
pub(crate) fn any_adds(changes: &[Change], table: u32, name: &Text) -> bool
    ensures { result ≡ list_any (adds_of table name.now) changes.now }
{
    changes.iter().any(|c| adds(c, table, name))
}

/// Whether one of these adds an index that lists the table's column of this name.
pub(crate) fn any_adds_index_on(changes: &[Change], table: u32, name: &Text) -> bool
    ensures { result ≡ list_any (adds_index_on_of table name.now) changes.now }
{
    changes.iter().any(|c| adds_index_on(c, table, name))
}

/// Whether one of these takes an element of this name out of the table.
pub(crate) fn any_drops(changes: &[Change], table: u32, name: &Text) -> bool
    ensures { result ≡ list_any (drops_of table name.now) changes.now }
{
    changes.iter().any(|c| drops(c, table, name))
}

/// Whether one of these takes the table's index of this name out.
pub(crate) fn any_drops_index(changes: &[Change], table: u32, name: &Text) -> bool
    ensures { result ≡ list_any (drops_index_of table name.now) changes.now }
{
    changes.iter().any(|c| drops_index(c, table, name))
}

/// Whether one of these takes the table's column of this name out.
pub(crate) fn any_drops_column(schema: &Schema, changes: &[Change], table: u32, name: &Text) -> bool
    ensures { result ≡ list_any (drops_column_of schema.now table name.now) changes.now }
{
    changes.iter().any(|c| drops_column(schema, c, table, name))
}

// The steps until the change's column is public, if it adds the table's column of this name.
fn steps_to(change: &Change, table: u32, name: &Text) -> u32
    ensures { result ≡ steps_to_of table name.now change.now }
{
    match change {
        Change::AddColumn { kind, .. } if is_of(change, table, name) => steps(state_path_in(kind)),
        _ => 0,
    }
}

// The steps until the column of this name is public that these changes add.
fn steps_until(changes: &[Change], table: u32, name: &Text) -> u32
    ensures { result ≡ steps_until_of table name.now changes.now }
{
    let mut most = 0;
    for change in changes {
        let steps = steps_to(change, table, name);
        if steps > most {
            most = steps;
        }
    }
    most
}

/// The steps that an index over these columns waits: until the last of them that the batch adds is
/// public.
pub(crate) fn wait_in(all: &[Change], table: u32, columns: &[Text]) -> u32
    ensures { result ≡ wait_in_of all.now table columns.now }
{
    let mut most = 0;
    for name in columns {
        let steps = steps_until(all, table, name);
        if steps > most {
            most = steps;
        }
    }
    most
}

/// Whether the change adds an element that waits so many steps.
pub(crate) fn enters_at(all: &[Change], wait: u32, change: &Change) -> bool
    ensures { result ≡ enters_at_of all.now wait change.now }
{
    match change {
        Change::AddIndex { table, columns, .. } => wait_in(all, *table, columns.as_slice()) == wait,
        Change::AddColumn { .. } => wait == 0,
        _ => false,
    }
}

/// Whether the change adds an element that waits fewer steps.
pub(crate) fn enters_before(all: &[Change], wait: u32, change: &Change) -> bool
    ensures { result ≡ enters_before_of all.now wait change.now }
{
    match change {
        Change::AddIndex { table, columns, .. } => wait_in(all, *table, columns.as_slice()) < wait,
        Change::AddColumn { .. } => 0 < wait,
        _ => false,
    }
}
