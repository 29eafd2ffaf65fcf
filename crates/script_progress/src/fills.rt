//! What a fill would read: the rows of its table. They are known while a reorganisation that goes
//! over the rows of the table is begun.
use crate::moves::{entered_by, push_moved};
use change_plan::{PlanStep, Reorg};
use schema_version::{ElementDef, NewElement, Work};
use script_views::script_session::Opened;
use script_views::world::World;
use std::alloc::{AllocError, Global};

/// Whether the items of a reorganisation are the rows of the element's table: those of the clear of
/// an index are its pairs.
pub(crate) fn goes_over_rows(work: Work, element: &ElementDef) -> bool {
    matches!(work, Work::Fill) || !element.kind.is_index()
}

// How many rows the begun reorganisation of an element goes over, if it goes over rows.
fn rows_by(world: &World, element: &ElementDef) -> Option<usize> {
    let (work, _, _) = world.progress(element.number)?;
    if goes_over_rows(work, element) {
        world.items_in_all(element.number)
    } else {
        None
    }
}

/// How many rows a table has; `None` if no begun reorganisation goes over them.
///
/// - `table`: the number of the table.
pub(crate) fn rows_of(world: &World, table: u32) -> Option<usize> {
    for element in world.newest().get().elements() {
        if element.table == table {
            if let Some(rows) = rows_by(world, element) {
                return Some(rows);
            }
        }
    }
    None
}

// The table of an element of the newest version, or of one that enters.
fn table_of(opened: &Opened, entered: (u32, &[&NewElement]), number: u32) -> Option<u32> {
    if let Some(element) = opened.world.newest().get().element(number) {
        return Some(element.table);
    }
    let place = number.wrapping_sub(entered.0) as usize;
    let fresh = entered.1.get(place)?;
    Some(fresh.table)
}

fn push_read(
    out: &mut String,
    opened: &Opened,
    entered: (u32, &[&NewElement]),
    step: usize,
    number: u32,
) -> Result<(), AllocError> {
    let Some(table) = table_of(opened, entered, number) else {
        return Ok(());
    };
    let Some(rows) = rows_of(&opened.world, table) else {
        return Ok(());
    };
    write!(out, "\nstep {step}: the fill of ")?;
    push_moved(out, opened, &[], entered, number)?;
    write!(out, " would read {rows} rows")
}

fn push_step_reads(
    out: &mut String,
    opened: &Opened,
    entered: (u32, &[&NewElement]),
    step: usize,
    before: &[Reorg],
) -> Result<(), AllocError> {
    for reorg in before {
        if let Reorg::Fill(number) = reorg {
            push_read(out, opened, entered, step, *number)?;
        }
    }
    Ok(())
}

/// Adds a line for each fill of a plan whose table's rows are known. Refused only when out of
/// memory.
///
/// - `steps`: the plan, from the newest version on.
pub fn push_reads(
    alloc: Global,
    out: &mut String,
    opened: &Opened,
    steps: &[PlanStep],
) -> Result<(), AllocError> {
    let entered = entered_by(alloc, steps)?;
    let entered = (
        opened.world.newest().get().next_number(),
        entered.as_slice(),
    );
    for (i, step) in steps.iter().enumerate() {
        push_step_reads(
            out,
            opened,
            entered,
            i.saturating_add(1),
            step.before.as_slice(),
        )?;
    }
    Ok(())
}
