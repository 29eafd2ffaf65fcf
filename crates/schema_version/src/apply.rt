//! What a step makes of a version.
ghost use Rattle.std.specs.Prelude.{◌≡◌, ℕ, ◌+◌, ◌≤◌, nat_eq, count_by, map, IfOk, OnOk};
ghost use Rattle.std.specs.Map.{lookup};
ghost use Rattle.indexmap.specs.IndexMap.{insert_entry};
ghost use Rattle.schema_version.specs.Version.{Version};
ghost use Rattle.schema_version.specs.Names.{max_elements};
ghost use Rattle.schema_version.specs.Moves.{as_element, is_entry, after_step};
ghost use Rattle.schema_version.specs.Held.{moved_entries, turned_entries, made, table_held, IsHeld, holding};

use crate::edges::edge;
use crate::element::{ElementDef, ElementState, NewElement, Way};
use crate::step::Move;
use crate::table::Columns;
use indexmap::IndexMap;
use std::alloc::AllocError;

// Adds a new element under its number.
fn enter(
    elements: &mut IndexMap<u32, ElementDef>,
    number: u32,
    fresh: &NewElement,
    to: ElementState,
) -> Result<(), AllocError>
    ensures entered { OnOk result (elements.new.entries ≡ insert_entry nat_eq elements.old.entries number (as_element number fresh.now to)) }
{
    let element = ElementDef {
        number,
        table: fresh.table,
        name: fresh.name.clone()?,
        kind: fresh.kind.clone()?,
        state: to,
        way: Way::Adding,
    };
    elements.insert(number, element)?;
    Ok(())
}

// Takes an element to a state. One that becomes absent is no longer held.
fn go(
    elements: &mut IndexMap<u32, ElementDef>,
    number: u32,
    to: ElementState,
) -> Result<(), AllocError>
    ensures moved { OnOk result (elements.new.entries ≡ moved_entries elements.old.entries number (lookup (nat_eq number) elements.old.entries) to) }
{
    let Some(element) = elements.get(&number) else {
        return Ok(());
    };
    if matches!(to, ElementState::Absent) {
        elements.shift_remove(&number);
        return Ok(());
    }
    let next = ElementDef {
        number: element.number,
        table: element.table,
        name: element.name.clone()?,
        kind: element.kind.clone()?,
        state: to,
        way: edge(&element.kind, element.way, element.state, to).unwrap_or(element.way),
    };
    elements.insert(number, next)?;
    Ok(())
}

// Turns an element back: it keeps its state, and is dropped from then on.
fn turn(elements: &mut IndexMap<u32, ElementDef>, number: u32) -> Result<(), AllocError>
    ensures turned { OnOk result (elements.new.entries ≡ turned_entries elements.old.entries number (lookup (nat_eq number) elements.old.entries)) }
{
    let Some(element) = elements.get(&number) else {
        return Ok(());
    };
    let next = ElementDef {
        number: element.number,
        table: element.table,
        name: element.name.clone()?,
        kind: element.kind.clone()?,
        state: element.state,
        way: Way::Dropping,
    };
    elements.insert(number, next)?;
    Ok(())
}

// Makes a move, and gives the next number after it.
fn make(elements: &mut IndexMap<u32, ElementDef>, next: u32, a: &Move) -> Result<u32, AllocError>
    requires { next ≤ max_elements + 1 }
    ensures made { IfOk result (λ then. (elements.new.entries, then) ≡ made elements.old.entries next a.now) }
{
    match a {
        Move::Enter { fresh, to } => {
            enter(elements, next, fresh, *to)?;
            Ok(next + 1)
        }
        Move::Go { element, to } => {
            go(elements, *element, *to)?;
            Ok(next)
        }
        Move::Turn { element } => {
            turn(elements, *element)?;
            Ok(next)
        }
    }
}

// Makes each of the moves.
pub(crate) fn make_all(
    elements: &mut IndexMap<u32, ElementDef>,
    first: u32,
    moves: &[Move],
) -> Result<u32, AllocError>
    requires held { IsHeld elements.old.entries first }
    requires room { first + count_by is_entry moves.now ≤ max_elements + 1 }
    ensures held { IfOk result (λ next. IsHeld elements.new.entries next) }
    ensures number { IfOk result (λ next. next ≡ first + count_by is_entry moves.now) }
    ensures after { (version : Version) → IfOk result (λ next. holding version elements.new.entries next ≡ after_step (holding version elements.old.entries first) moves.now) }
{
    let mut next = first;
    for a in moves {
        next = make(elements, next, a)?;
    }
    Ok(next)
}

/// A copy of the elements.
pub(crate) fn copy_elements(
    elements: &IndexMap<u32, ElementDef>,
) -> Result<IndexMap<u32, ElementDef>, AllocError>
    ensures { IfOk result (λ copy. copy.entries ≡ elements.now.entries) }
{
    elements.clone()
}

/// A copy of the tables.
pub(crate) fn copy_tables(
    tables: &IndexMap<String, Columns>,
) -> Result<IndexMap<String, Columns>, AllocError>
    ensures { IfOk result (λ copy. map table_held copy.entries ≡ map table_held tables.now.entries) }
{
    tables.clone()
}
