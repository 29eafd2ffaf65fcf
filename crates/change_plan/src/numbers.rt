//! The numbers that added elements will have.
ghost use Rattle.std.specs.Prelude.{◌≡◌, ◌+◌, ◌≤◌, [], ◌∷◌, length, take, count_by, IfOk, option_to_list};
ghost use Rattle.std.specs.Option.{option_copied};
ghost use mathlib.Core.List.{map as each};
ghost use Rattle.schema_version.specs.Names.{max_elements};
ghost use Rattle.change_plan.specs.declared.change.Change.TheVariants.{AddIndex};
ghost use Rattle.change_plan.specs.Refusals.{is_addition as is_addition_of};
ghost use Rattle.change_plan.specs.Schedule.{enters_at as enters_at_of, enters_before as enters_before_of, number_of as number_of_change, added_number as added_number_of, column_number as column_number_of, state_path_out as state_path_out_of, steps_on as steps_on_of, wait_out as wait_out_of, out_schedule as out_schedule_of, schedule_out as schedule_out_of, column_schedule as column_schedule_of, schedule_of as schedule_of_change, schedules as schedules_of_batch};

use crate::change::Change;
use crate::changes::{adds_column, enters_at, enters_before, wait_in};
use crate::find::{dropped_element, lists, named_column};
use crate::schedule::{Schedule, StatePath, state_path_in, state_path_out, steps};
use collections::List;
use keycode::Text;
use schema_version::{ElementDef, Kind, NewElement, Schema};
use std::alloc::{AllocError, Global};

// How many of these add an element that waits so many steps.
fn count_at(all: &[Change], wait: u32, changes: &[Change]) -> usize
    ensures { result ≡ count_by (enters_at_of all.now wait) changes.now }
{
    changes.iter().filter(|c| enters_at(all, wait, *c)).count()
}

// How many add an element that waits fewer steps.
fn count_before(all: &[Change], wait: u32) -> usize
    ensures { result ≡ count_by (enters_before_of all.now wait) all.now }
{
    all.iter().filter(|c| enters_before(all, wait, *c)).count()
}

// The number of the element that the change of this place adds, by its wait.
#[tactic(auto, using(crate::proofs::EntryNumbers::number_room))]
fn number_of(next: u32, all: &[Change], place: usize, wait: u32) -> u32
    requires place { place ≤ length all.now }
    requires room { next + count_by is_addition_of all.now ≤ max_elements + 1 }
    ensures { result ≡ number_of_change next all.now (take place all.now) wait }
{
    next + count_before(all, wait) as u32 + count_at(all, wait, &all[..place]) as u32
}

// The number of the column that the batch adds under this name; 0 if it adds none.
fn added_number(changes: &[Change], next: u32, table: u32, name: &Text) -> u32
    requires { next + count_by is_addition_of changes.now ≤ max_elements + 1 }
    ensures { result ≡ added_number_of next changes.now [] table name.now changes.now }
{
    for (i, change) in changes.iter().enumerate() {
        if adds_column(change, table, name) {
            return number_of(next, changes, i, 0);
        }
    }
    0
}

// The number of a listed column, live or added.
fn column_number(schema: &Schema, next: u32, changes: &[Change], table: u32, name: &Text) -> u32
    requires is_next { next ≡ schema.now.next }
    requires room { next + count_by is_addition_of changes.now ≤ max_elements + 1 }
    ensures { result ≡ column_number_of schema.now changes.now table name.now }
{
    match named_column(schema, table, name) {
        Some(column) => column.number,
        None => added_number(changes, next, table, name),
    }
}

fn column_numbers(
    alloc: Global,
    schema: &Schema,
    next: u32,
    changes: &[Change],
    table: u32,
    names: &[Text],
) -> Result<Vec<u32>, AllocError>
    requires is_next { next ≡ schema.now.next }
    requires room { next + count_by is_addition_of changes.now ≤ max_elements + 1 }
    ensures { IfOk result (λ numbers. numbers.items ≡ each (column_number_of schema.now changes.now table) names.now) }
{
    names
        .iter()
        .map(|c| column_number(schema, next, changes, table, c))
        .collect(alloc)
}

// The steps until an element that leaves has gone, if it is an index that lists this column.
fn steps_on(column: u32, element: Option<&ElementDef>) -> u32
    ensures { result ≡ steps_on_of column (option_copied element.entry) }
{
    match element {
        Some(index) if lists(index, column) => steps(state_path_out(&index.kind, index.state)),
        _ => 0,
    }
}

// The steps until no index that these take out lists the element any more.
fn wait_out(schema: &Schema, number: u32, changes: &[Change]) -> u32
    ensures { result ≡ wait_out_of schema.now number changes.now }
{
    let mut most = 0;
    for change in changes {
        let steps = steps_on(number, dropped_element(schema, change));
        if steps > most {
            most = steps;
        }
    }
    most
}

fn out_schedule(
    schema: &Schema,
    all: &[Change],
    element: &ElementDef,
) -> Result<Schedule, AllocError>
    ensures { IfOk result (λ schedule. schedule ≡ out_schedule_of schema.now all.now element.now) }
{
    Ok(Schedule {
        wait: wait_out(schema, element.number, all),
        state_path: state_path_out(&element.kind, element.state),
        number: element.number,
        fresh: NewElement {
            table: element.table,
            name: element.name.clone()?,
            kind: element.kind.clone()?,
        },
    })
}

// The schedule of an element that leaves; none if it isn't there.
fn schedule_out(
    schema: &Schema,
    all: &[Change],
    element: Option<&ElementDef>,
) -> Result<Option<Schedule>, AllocError>
    ensures { IfOk result (λ schedule. option_to_list schedule ≡ schedule_out_of schema.now all.now (option_copied element.entry)) }
{
    match element {
        Some(element) => Ok(Some(out_schedule(schema, all, element)?)),
        None => Ok(None),
    }
}

fn index_schedule(
    alloc: Global,
    schema: &Schema,
    next: u32,
    all: &[Change],
    place: usize,
    table: u32,
    name: &Text,
    columns: &[Text],
) -> Result<Schedule, AllocError>
    requires is_next { next ≡ schema.now.next }
    requires place { place ≤ length all.now }
    requires room { next + count_by is_addition_of all.now ≤ max_elements + 1 }
    ensures { IfOk result (λ schedule. schedule ∷ [] ≡ schedule_of_change schema.now all.now (take place all.now) (AddIndex table name.now columns.now)) }
{
    let wait = wait_in(all, table, columns);
    let indexed_columns = column_numbers(alloc, schema, next, all, table, columns)?;
    Ok(Schedule {
        wait,
        state_path: StatePath::FilledIn,
        number: number_of(next, all, place, wait),
        fresh: NewElement {
            table,
            name: name.clone()?,
            kind: Kind::Index(List::new(indexed_columns)),
        },
    })
}

fn column_schedule(
    number: u32,
    table: u32,
    name: &Text,
    kind: &Kind,
) -> Result<Schedule, AllocError>
    ensures { IfOk result (λ schedule. schedule ≡ column_schedule_of number table name.now kind.now) }
{
    Ok(Schedule {
        wait: 0,
        state_path: state_path_in(kind),
        number,
        fresh: NewElement {
            table,
            name: name.clone()?,
            kind: kind.clone()?,
        },
    })
}

// The schedule of the change of this place; none if what it drops isn't there.
fn schedule_of(
    alloc: Global,
    schema: &Schema,
    next: u32,
    all: &[Change],
    place: usize,
    change: &Change,
) -> Result<Option<Schedule>, AllocError>
    requires is_next { next ≡ schema.now.next }
    requires place { place ≤ length all.now }
    requires room { next + count_by is_addition_of all.now ≤ max_elements + 1 }
    ensures { IfOk result (λ schedule. option_to_list schedule ≡ schedule_of_change schema.now all.now (take place all.now) change.now) }
{
    match change {
        Change::AddIndex {
            table,
            name,
            columns,
        } => {
            let columns = columns.as_slice();
            let schedule = index_schedule(alloc, schema, next, all, place, *table, name, columns)?;
            Ok(Some(schedule))
        }
        Change::AddColumn { table, name, kind } => {
            let schedule = column_schedule(number_of(next, all, place, 0), *table, name, kind)?;
            Ok(Some(schedule))
        }
        _ => schedule_out(schema, all, dropped_element(schema, change)),
    }
}

/// The schedules of the batch's changes, in order.
pub(crate) fn schedules_of(
    alloc: Global,
    schema: &Schema,
    next: u32,
    changes: &[Change],
) -> Result<Vec<Schedule>, AllocError>
    requires is_next { next ≡ schema.now.next }
    requires room { next + count_by is_addition_of changes.now ≤ max_elements + 1 }
    ensures { IfOk result (λ schedules. schedules.items ≡ schedules_of_batch schema.now changes.now) }
{
    let mut schedules = Vec::new(alloc);
    for (i, change) in changes.iter().enumerate() {
        if let Some(schedule) = schedule_of(alloc, schema, next, changes, i, change)? {
            schedules.push(schedule)?;
        }
    }
    Ok(schedules)
}
