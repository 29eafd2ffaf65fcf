//! What a piece writes.
ghost use Rattle.std.specs.Prelude.{◌≡◌, IfOk, IfErr, OnOk};
ghost use Rattle.std.specs.FinMap as map;
ghost use Rattle.row_map.specs.Writes.{noted};
ghost use Rattle.element_state.specs.Kinds.{kind_meaning, table_of_any, meaning_of_any};
ghost use Rattle.element_state.specs.Sources.{source_alone};
ghost use Rattle.schema_version.specs.declared.element.Work.TheVariants.{Fill, Clear};
ghost use Rattle.reorganise.specs.Batches.{pair_writes, piece_writes};

use crate::prepared::PreparedPiece;
use crate::read::Reading;
use crate::row::row;
use crate::scan_range::{ScanRange, is_item, row_at};
use crate::view::PieceView;
use byte_map::{Bytes, KeyMap};
use element_state::{AnyElement, Element};
use row_map::{Batch, Expect, column_key};
use schema_version::{ElementDef, Kind, Work};
use std::alloc::{AllocError, Global};

/// Notes the pair that a fill puts for the row of this key, if it is one.
fn note_put(
    alloc: Global,
    batch: &mut Batch,
    pairs: &KeyMap<Bytes>,
    element: &ElementDef,
    filled: &AnyElement,
    name: &Bytes,
) -> Result<(), AllocError>
    requires table { table_of_any filled.now ≡ element.now.table }
    requires meaning { meaning_of_any filled.now ≡ kind_meaning element.now.number (source_alone element.now.kind) }
    ensures { OnOk result (batch.new ≡ noted batch.old (pair_writes pairs.now element.now Fill name.now)) }
{
    let key = match row_at(alloc, element.table, name.as_slice())? {
        None => return Ok(()),
        Some(key) => key,
    };
    let row = row(alloc, pairs, element, key)?;
    match filled.fill_of(alloc, &row)? {
        None => Ok(()),
        Some((name, value)) => batch.put(name, value),
    }
}

/// Notes that the pair goes which a clear takes away where it comes to this key.
fn note_removal(
    alloc: Global,
    batch: &mut Batch,
    pairs: &KeyMap<Bytes>,
    element: &ElementDef,
    name: &Bytes,
) -> Result<(), AllocError>
    ensures { OnOk result (batch.new ≡ noted batch.old (pair_writes pairs.now element.now Clear name.now)) }
{
    match element.kind {
        Kind::Index(_) => {
            if is_item(alloc, ScanRange::Entries(element.number), name.as_slice())? {
                batch.remove(name.clone()?)
            } else {
                Ok(())
            }
        }
        Kind::Optional(_) | Kind::Required { .. } => match row_at(
            alloc,
            element.table,
            name.as_slice(),
        )? {
            None => Ok(()),
            Some(key) => batch.remove(column_key(
                alloc,
                element.table,
                key.as_slice(),
                element.number,
            )?),
        },
    }
}

/// What a fill of the element puts for the rows among the pairs.
fn puts(
    alloc: Global,
    element: &ElementDef,
    filled: &AnyElement,
    pairs: &KeyMap<Bytes>,
) -> Result<Batch, AllocError>
    requires table { table_of_any filled.now ≡ element.now.table }
    requires meaning { meaning_of_any filled.now ≡ kind_meaning element.now.number (source_alone element.now.kind) }
    ensures { IfOk result (λ batch. batch ≡ noted map.empty (piece_writes pairs.now element.now Fill)) }
{
    let mut batch = Batch::new(alloc);
    for (name, _) in pairs.entries() {
        note_put(alloc, &mut batch, pairs, element, filled, name)?;
    }
    Ok(batch)
}

/// What a clear of the element removes where it comes to the pairs.
fn removals(alloc: Global, element: &ElementDef, pairs: &KeyMap<Bytes>) -> Result<Batch, AllocError>
    ensures { IfOk result (λ batch. batch ≡ noted map.empty (piece_writes pairs.now element.now Clear)) }
{
    let mut batch = Batch::new(alloc);
    for (name, _) in pairs.entries() {
        note_removal(alloc, &mut batch, pairs, element, name)?;
    }
    Ok(batch)
}

/// What a piece writes.
fn batch_of(
    alloc: Global,
    element: &ElementDef,
    kind: Work,
    pairs: &KeyMap<Bytes>,
) -> Result<Batch, AllocError>
    ensures { IfOk result (λ batch. batch ≡ noted map.empty (piece_writes pairs.now element.now kind)) }
{
    match kind {
        Work::Fill => {
            let filled = AnyElement::alone(alloc, element)?;
            puts(alloc, element, &filled, pairs)
        }
        Work::Clear => removals(alloc, element, pairs),
    }
}

/// Prepares a piece: its batch puts what `fill_of` gives for each item that was read, or removes
/// each item's pair of the element, and writes for no other. Of a row it takes the values that the
/// pairs of its columns encode; one that is not the code of just one value counts as none. For a
/// required column it puts the value that the column's own pair of the row encodes, if that is of
/// the column's type, or else the default. The piece expects that all pairs which were read are the
/// only ones in their range, so a pair that came since is a conflict too.
///
/// Refused only when out of memory, and `view` is then given back.
pub fn prepare_piece(
    alloc: Global,
    view: PieceView,
) -> Result<PreparedPiece, (AllocError, PieceView)>
    ensures ok { IfOk result (λ piece. piece ≡ view) }
    ensures err { IfErr result (λ fault. fault.1 ≡ view) }
{
    match batch_of(alloc, view.element(), view.kind(), view.pairs()) {
        Err(error) => Err((error, view)),
        Ok(batch) => {
            let Reading {
                element,
                kind,
                piece,
                low,
                high,
                key_range,
            } = view.into_reading();
            let expect = Expect {
                points: KeyMap::new(alloc),
                key_range: Some(key_range),
            };
            Ok(PreparedPiece {
                element,
                kind,
                piece,
                low,
                high,
                expect,
                batch,
            })
        }
    }
}
