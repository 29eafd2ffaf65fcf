//! What is being added or dropped as JSON, with the pieces of begun reorganisations.
use crate::elements::put_element;
use crate::object::{Object, list_object, put_flag, put_list, put_number};
use reorganise::{Progress, Span};
use row_map::RankedView;
use schema_version::ElementDef;
use script_progress::is_resting;
use script_progress::world::World;
use serde_json::{Map, Value};
use std::alloc::{AllocError, Global};

fn put_piece(
    alloc: Global,
    out: &mut Object,
    world: &World,
    piece: &Span,
) -> Result<(), AllocError> {
    let (low, high) = (piece.low.as_slice(), piece.high.as_slice());
    let cursor = piece.cursor.as_slice();
    put_flag(alloc, out, "ended", cursor == high)?;
    put_number(alloc, out, "left", world.count_empty(cursor, high) as u64)?;
    put_number(alloc, out, "all", world.count_empty(low, high) as u64)
}

fn pieces_of(alloc: Global, world: &World, pieces: &[Span]) -> Result<Vec<Value>, AllocError> {
    let mut values = Vec::new(alloc);
    for (number, piece) in pieces.iter().enumerate() {
        let mut out = Map::new(alloc);
        put_number(alloc, &mut out, "number", number as u64)?;
        put_piece(alloc, &mut out, world, piece)?;
        values.push(Value::Object(out))?;
    }
    Ok(values)
}

fn progress_of(begun: &[Progress], element: u32) -> Option<&Progress> {
    begun
        .iter()
        .find(|progress| progress.element.number == element)
}

fn put_progress(
    alloc: Global,
    out: &mut Object,
    world: &World,
    begun: &[Progress],
    element: &ElementDef,
) -> Result<(), AllocError> {
    put_element(alloc, out, world, element)?;
    let Some(progress) = progress_of(begun, element.number) else {
        return Ok(());
    };
    let pieces = pieces_of(alloc, world, progress.pieces.as_slice())?;
    put_list(alloc, out, "pieces", pieces)
}

fn elements_on_their_way(
    alloc: Global,
    world: &World,
    begun: &[Progress],
) -> Result<Vec<Value>, AllocError> {
    let mut found = Vec::new(alloc);
    for element in world.newest().get().elements() {
        if !is_resting(element) {
            let mut out = Map::new(alloc);
            put_progress(alloc, &mut out, world, begun, element)?;
            found.push(Value::Object(out))?;
        }
    }
    Ok(found)
}

/// What is being added or dropped: `{"progress": [..]}`, each as in the description, and if its
/// reorganisation is begun with `pieces`, each with its `number`, whether it has `ended`, and how many
/// items are `left` in it and in `all`, for which no item is walked over. Refused only when out of
/// memory.
pub(crate) fn progress_value(alloc: Global, world: &World) -> Result<Value, AllocError> {
    let checkpoint = world.checkpoint()?;
    let found = elements_on_their_way(alloc, world, checkpoint.begun())?;
    list_object(alloc, "progress", found)
}
