//! Whether what the pieces of a begun reorganisation have passed is done.
ghost use Rattle.std.specs.Prelude.{◌≡◌, ◌==◌, true, IfOk, IfSome, Some};
ghost use Rattle.std.specs.Bool.{Decides};
ghost use Rattle.std.specs.List.{AllByRecursion};
ghost use Rattle.row_map.specs.Keys.{IsKey};
ghost use Rattle.row_map.specs.declared.key.KeyOf.TheVariants.{Exists};
ghost use Rattle.row_map.specs.Walk.{key_range};
ghost use Rattle.schema_version.specs.Version.{element_at};
ghost use Rattle.element_state.specs.Elements.{element_of as element_of_key};
ghost use Rattle.checkpoint_check.specs.inner.Made.{definition_of, IsMade};
ghost use Rattle.checkpoint_check.specs.inner.Passed.{may_run as may_run_of, is_filled_by as is_filled_by_of, is_cleared_by as is_cleared_by_of, is_passed as is_passed_of, ArePassed, IsPieceDone, IsTested, AreTested};

use crate::judge::is_absent;
use crate::made::{Made, made_of, own_pair};
use crate::pieces::{are_of_others, is_begun, is_in_pieces};
use crate::row::stored_row;
use audit::key_of;
use keycode::Value;
use reorganise::{Progress, Span};
use row_map::{KeyOf, Near, PairView};
use schema_version::{ElementState, Schema, Work};
use std::alloc::{AllocError, Global};

// Whether an element may be filled, or else cleared, in this state.
fn may_run(kind: Work, state: ElementState) -> bool
    ensures { result ≡ may_run_of kind state }
{
    use ElementState::{Absent, DeleteOnly, Public, WriteOnly};
    matches!(
        (kind, state),
        (Work::Fill, WriteOnly)
            | (Work::Fill, Public)
            | (Work::Clear, Absent)
            | (Work::Clear, DeleteOnly)
    )
}

// Whether a row of the element's table has its pair.
fn is_row_filled<V: PairView>(
    alloc: Global,
    newest: &Schema,
    view: &V,
    near: &mut Near,
    made: &Made<'_>,
    table: u32,
    key: &[Value],
) -> Result<bool, AllocError>
    requires { IsMade newest.now made.now }
    ensures { IfOk result (λ filled. filled ≡ is_filled_by_of newest.now (V.pairs view.now) (definition_of made.now) (Some (Exists table key.now))) }
{
    if table != made.definition.table {
        return Ok(true);
    }
    let row = stored_row(alloc, newest, view, near, table, key)?;
    let pair = own_pair(alloc, made, &row)?;
    Ok(!is_absent(view, &pair))
}

fn is_filled_by<V: PairView>(
    alloc: Global,
    newest: &Schema,
    view: &V,
    near: &mut Near,
    made: &Made<'_>,
    read: &Option<KeyOf>,
) -> Result<bool, AllocError>
    requires { IsMade newest.now made.now }
    ensures { IfOk result (λ filled. filled ≡ is_filled_by_of newest.now (V.pairs view.now) (definition_of made.now) read.now) }
{
    match read {
        Some(KeyOf::Exists { table, key }) => {
            is_row_filled(alloc, newest, view, near, made, *table, key.as_slice())
        }
        _ => Ok(true),
    }
}

// The element whose pair a key is the key of.
fn element_of(key: &KeyOf) -> u32
    ensures { result ≡ element_of_key key.now }
{
    match key {
        KeyOf::Exists { .. } => 0,
        KeyOf::Column { element, .. } | KeyOf::Index { element, .. } => *element,
    }
}

// Whether a key is none of the element's.
fn is_cleared_by(made: &Made<'_>, read: &Option<KeyOf>) -> bool
    ensures { result ≡ is_cleared_by_of (definition_of made.now) read.now }
{
    match read {
        None => true,
        Some(key) => element_of(key) != made.definition.number,
    }
}

// Whether a pair that a piece has passed is as the work leaves it.
fn is_passed<V: PairView>(
    alloc: Global,
    newest: &Schema,
    view: &V,
    near: &mut Near,
    made: &Made<'_>,
    kind: Work,
    pair: (&[u8], &[u8]),
) -> Result<bool, AllocError>
    requires { IsMade newest.now made.now }
    ensures { IfOk result (λ passed. passed ≡ is_passed_of newest.now (V.pairs view.now) (definition_of made.now) kind (pair.entry.0.now, pair.entry.1.now)) }
{
    let read = key_of(alloc, pair.0)?;
    match kind {
        Work::Fill => is_filled_by(alloc, newest, view, near, made, &read),
        Work::Clear => Ok(is_cleared_by(made, &read)),
    }
}

// Whether a piece's work is done below its cursor.
fn is_piece_done<V: PairView>(
    alloc: Global,
    newest: &Schema,
    view: &V,
    near: &mut Near,
    made: &Made<'_>,
    kind: Work,
    span: &Span,
) -> Result<bool, AllocError>
    requires { IsMade newest.now made.now }
    ensures { IfOk result (λ done. Decides done (IsPieceDone newest.now (V.pairs view.now) (definition_of made.now) kind span.now)) }
{
    let mut walk = view.walk_within(span.low.as_slice(), span.cursor.as_slice());
    while let Some(pair) = walk.next() {
        if !is_passed(alloc, newest, view, near, made, kind, pair)? {
            return Ok(false);
        }
    }
    Ok(true)
}

// Whether all pieces' work is done below their cursors.
fn are_pieces_done<V: PairView>(
    alloc: Global,
    newest: &Schema,
    view: &V,
    progress: &Progress,
) -> Result<bool, AllocError>
    ensures { IfOk result (λ done. Decides done (AllByRecursion (IsPieceDone newest.now (V.pairs view.now) progress.now.element progress.now.kind) progress.now.pieces)) }
{
    let made = made_of(alloc, newest, &progress.element)?;
    let mut near = Near::new();
    for span in progress.pieces.as_slice() {
        if !is_piece_done(alloc, newest, view, &mut near, &made, progress.kind, span)? {
            return Ok(false);
        }
    }
    Ok(true)
}

// Whether a begun reorganisation is what its element wants, may run under both versions, and is
// done where its pieces have passed.
fn is_tested<V: PairView>(
    alloc: Global,
    before: &Schema,
    newest: &Schema,
    view: &V,
    progress: &Progress,
) -> Result<bool, AllocError>
    ensures { IfOk result (λ tested. Decides tested (IsTested before.now newest.now (V.pairs view.now) progress.now)) }
{
    let number = progress.element.number;
    if !is_begun(alloc, newest, progress)? || !is_in_pieces(progress) {
        return Ok(false);
    }
    if !may_run(progress.kind, before.state(number))
        || !may_run(progress.kind, newest.state(number))
    {
        return Ok(false);
    }
    are_pieces_done(alloc, newest, view, progress)
}

// The same of all begun reorganisations, and that no two are of one element.
pub(crate) fn are_tested<V: PairView>(
    alloc: Global,
    before: &Schema,
    newest: &Schema,
    view: &V,
    begun: &[Progress],
) -> Result<bool, AllocError>
    ensures { IfOk result (λ tested. Decides tested (AreTested before.now newest.now (V.pairs view.now) begun.now)) }
{
    for i in 0..begun.len() {
        let (one, others) = (&begun[i], &begun[i + 1..]);
        if !are_of_others(one, others) || !is_tested(alloc, before, newest, view, one)? {
            return Ok(false);
        }
    }
    Ok(true)
}
