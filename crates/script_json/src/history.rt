//! The versions on a line of moments as JSON.
use crate::object::{Object, put_list, put_number, put_text};
use keycode::Text;
use schema_version::{Move, NewElement, Step};
use script_grammar::state_word;
use script_progress::script_session::Opened;
use script_progress::{Happened, History, history_of, push_moved};
use serde_json::{Map, Value};
use std::alloc::{AllocError, Global};

// Whose names the moves of steps have: the world, the names of elements that have left, the number of
// the first element that entered, and all that entered.
#[derive(Clone, Copy)]
struct Names<'a> {
    opened: &'a Opened,
    gone: &'a [(u32, Text)],
    entered: (u32, &'a [&'a NewElement]),
}

// Puts an element by its number and its name.
fn put_moved(
    alloc: Global,
    out: &mut Object,
    names: Names<'_>,
    number: u32,
) -> Result<(), AllocError> {
    let mut name = String::new(alloc);
    push_moved(&mut name, names.opened, names.gone, names.entered, number)?;
    put_text(alloc, out, "element", name.as_str())?;
    put_number(alloc, out, "number", u64::from(number))
}

// A move of an element: `to` a state, or to a `way`.
fn move_value(
    alloc: Global,
    names: Names<'_>,
    number: u32,
    to: (&'static str, &'static str),
) -> Result<Value, AllocError> {
    let mut out = Map::new(alloc);
    put_moved(alloc, &mut out, names, number)?;
    put_text(alloc, &mut out, to.0, to.1)?;
    Ok(Value::Object(out))
}

// Adds the moves of a step, and answers the number of the first element that enters after it.
//
// - `next`: the number of the first that enters by it.
fn push_moves(
    alloc: Global,
    moves: &mut Vec<Value>,
    names: Names<'_>,
    next: u32,
    step: &Step,
) -> Result<u32, AllocError> {
    let mut next = next;
    for made in step.as_slice() {
        let (number, to) = match made {
            Move::Enter { to, .. } => (next, ("to", state_word(*to))),
            Move::Go { element, to } => (*element, ("to", state_word(*to))),
            Move::Turn { element } => (*element, ("way", "dropping")),
        };
        if matches!(made, Move::Enter { .. }) {
            next = next.saturating_add(1);
        }
        moves.push(move_value(alloc, names, number, to)?)?;
    }
    Ok(next)
}

// Puts a version, with the moves of its step if that is in memory, and answers the number of the first
// element that enters after it.
fn put_version(
    alloc: Global,
    out: &mut Object,
    names: Names<'_>,
    next: u32,
    version: (u64, Option<&Step>),
) -> Result<u32, AllocError> {
    put_number(alloc, out, "version", version.0)?;
    let Some(step) = version.1 else {
        return Ok(next);
    };
    let mut moves = Vec::new(alloc);
    let next = push_moves(alloc, &mut moves, names, next, step)?;
    put_list(alloc, out, "moves", moves)?;
    Ok(next)
}

fn versions_of(
    alloc: Global,
    names: Names<'_>,
    history: &History<'_>,
) -> Result<Vec<Value>, AllocError> {
    let mut versions = Vec::new(alloc);
    let mut next = history.first;
    for event in history.events.as_slice() {
        if let Happened::Version { version, step } = event.what {
            let mut out = Map::new(alloc);
            put_number(alloc, &mut out, "moment", event.moment)?;
            next = put_version(alloc, &mut out, names, next, (version, step))?;
            versions.push(Value::Object(out))?;
        }
    }
    Ok(versions)
}

fn begins_of(
    alloc: Global,
    names: Names<'_>,
    history: &History<'_>,
) -> Result<Vec<Value>, AllocError> {
    let mut begun = Vec::new(alloc);
    for event in history.events.as_slice() {
        if let Happened::Begin { element, pieces } = event.what {
            let mut out = Map::new(alloc);
            put_number(alloc, &mut out, "moment", event.moment)?;
            put_moved(alloc, &mut out, names, element)?;
            put_number(alloc, &mut out, "pieces", u64::from(pieces))?;
            begun.push(Value::Object(out))?;
        }
    }
    Ok(begun)
}

fn put_timeline(
    alloc: Global,
    out: &mut Object,
    opened: &Opened,
    gone: &[(u32, Text)],
    history: &History<'_>,
) -> Result<(), AllocError> {
    let line = opened.world.timeline();
    let entered = (history.first, history.entered.as_slice());
    let names = Names {
        opened,
        gone,
        entered,
    };
    put_number(alloc, out, "length", line.length())?;
    put_number(alloc, out, "now", opened.world.moment())?;
    put_number(alloc, out, "earliest", line.earliest())?;
    let versions = versions_of(alloc, names, history)?;
    put_list(alloc, out, "versions", versions)?;
    let begun = begins_of(alloc, names, history)?;
    put_list(alloc, out, "reorganisations", begun)
}

/// The versions on a line of moments: the `length` of a lease, the moment `now`, the `earliest` one at
/// which the next version may be published, the `versions` (each with `version`, `moment`, and `moves` if its
/// step is in memory), and the begins of fills and clears, `reorganisations`. Refused only when out of
/// memory.
///
/// - `opened`: the world.
/// - `gone`: names of elements that have left, by their numbers.
pub(crate) fn timeline_value(
    alloc: Global,
    opened: &Opened,
    gone: &[(u32, Text)],
) -> Result<Value, AllocError> {
    let history = history_of(alloc, opened)?;
    let mut out = Map::new(alloc);
    put_timeline(alloc, &mut out, opened, gone, &history)?;
    Ok(Value::Object(out))
}
