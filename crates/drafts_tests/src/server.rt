//! Servers that draft over the store: what each call comes to.

use crate::fixtures::{Change, bytes_of, insert, step};
use crate::model::Store;
use byte_map::Bytes;
use collections::{ArcValue, List};
use drafts::{
    BeginFault, DivideFault, Drafted, PieceFault, PublishFault, Reorg, TxnDraft, draft_begin,
    draft_close, draft_divide, draft_piece, draft_publish, draft_txn,
};
use reorganise::{PreparedPiece, Progress, Span, ViewFault, prepare_piece};
use row_write::{PrepareFault, reads_of};
use schema_version::Schema;
use std::alloc::{AllocError, Global};

/// What came of a call.
#[derive(Clone, Copy, PartialEq, Eq)]
pub(crate) enum Outcome {
    /// The store applied its draft.
    Applied,
    /// It did not.
    Conflict,
    /// The call drafted nothing.
    Refused,
    /// What was drafted is kept for later.
    Kept,
}

/// The store, and what servers keep: schemas by their numbers, a draft and a piece.
#[derive(Drop)]
pub(crate) struct Servers {
    pub(crate) store: Store,
    pub(crate) schemas: Vec<(u64, ArcValue<Schema>)>,
    pub(crate) draft: Option<TxnDraft>,
    pub(crate) piece: Option<Prepared>,
}

fn applied(is_applied: bool) -> Outcome {
    if is_applied {
        Outcome::Applied
    } else {
        Outcome::Conflict
    }
}

/// The schema of a version that was read when it was open.
fn schema_of(servers: &Servers, number: u64) -> Result<Option<ArcValue<Schema>>, AllocError> {
    for (of, schema) in &servers.schemas {
        if *of == number {
            return Ok(Some(schema.clone()?));
        }
    }
    Ok(None)
}

/// A copy of a mark's name.
fn name_of(alloc: Global, mark: Option<&[u8]>) -> Result<Option<Bytes>, AllocError> {
    match mark {
        None => Ok(None),
        Some(name) => Ok(Some(Bytes::from_slice(alloc, name)?)),
    }
}

/// The draft of an insert, from what is there.
fn drafted(
    alloc: Global,
    servers: &Servers,
    number: u64,
    id: i64,
    mark: Option<&[u8]>,
) -> Result<Option<TxnDraft>, AllocError> {
    let Some(schema) = schema_of(servers, number)? else {
        return Ok(None);
    };
    let ops = ArcValue::new(alloc, insert(alloc, id)?)?;
    let keys = reads_of(alloc, schema.get(), ops.get().as_slice())?;
    let view = servers.store.view(alloc, &keys)?;
    match draft_txn(alloc, number, schema, ops, name_of(alloc, mark)?, view) {
        Ok(Drafted::Draft(draft)) => Ok(Some(draft)),
        Err((PrepareFault::Memory, _)) => Err(AllocError),
        _ => Ok(None),
    }
}

/// A draft is handed in.
fn hands_in(alloc: Global, store: &mut Store, draft: &TxnDraft) -> Result<Outcome, AllocError> {
    let control = draft.control(alloc)?;
    let is_applied = store.apply_with(alloc, control, draft.expect(), draft.batch())?;
    Ok(applied(is_applied))
}

/// An insert under a version, drafted and handed in.
pub(crate) fn inserts(
    alloc: Global,
    servers: &mut Servers,
    (number, id, mark): (u64, i64, Option<&[u8]>),
) -> Result<Outcome, AllocError> {
    match drafted(alloc, servers, number, id, mark)? {
        Some(draft) => hands_in(alloc, &mut servers.store, &draft),
        None => Ok(Outcome::Refused),
    }
}

/// One that is kept.
pub(crate) fn keeps(
    alloc: Global,
    servers: &mut Servers,
    (number, id, mark): (u64, i64, Option<&[u8]>),
) -> Result<Outcome, AllocError> {
    servers.draft = drafted(alloc, servers, number, id, mark)?;
    Ok(match servers.draft {
        Some(_) => Outcome::Kept,
        None => Outcome::Refused,
    })
}

/// The kept one is handed in, once more if it was before.
pub(crate) fn hands_in_kept(alloc: Global, servers: &mut Servers) -> Result<Outcome, AllocError> {
    match &servers.draft {
        Some(draft) => hands_in(alloc, &mut servers.store, draft),
        None => Ok(Outcome::Refused),
    }
}

/// A copy of the begun reorganisation of the index.
fn found(alloc: Global, store: &Store) -> Result<Vec<Reorg>, AllocError> {
    let mut found = Vec::new(alloc);
    if let Some(reorg) = store.reorg() {
        found.push(reorg.clone()?)?;
    }
    Ok(found)
}

/// A step from the version after this number. The schema of the next one is then read.
pub(crate) fn publishes(
    alloc: Global,
    servers: &mut Servers,
    before: u32,
    change: Change,
) -> Result<Outcome, AllocError> {
    let Some(newest) = servers.store.newest(before)? else {
        return Ok(Outcome::Refused);
    };
    let step = step(alloc, change)?;
    let found = found(alloc, &servers.store)?;
    servers.schemas.reserve(1)?;
    let control = match draft_publish(alloc, &newest, &step, found.as_slice()) {
        Ok(control) => control,
        Err(PublishFault::Memory) => return Err(AllocError),
        Err(_) => return Ok(Outcome::Refused),
    };
    let is_applied = servers.store.apply(control)?;
    let number = u64::from(before) + 2;
    if let Some(schema) = servers.store.schema(number)? {
        servers.schemas.push((number, schema))?;
    }
    Ok(applied(is_applied))
}

/// The close of the version before the one after this number.
pub(crate) fn closes(
    alloc: Global,
    servers: &mut Servers,
    before: u32,
) -> Result<Outcome, AllocError> {
    let Some(newest) = servers.store.newest(before)? else {
        return Ok(Outcome::Refused);
    };
    let control = draft_close(alloc, &newest)?;
    Ok(applied(servers.store.apply(control)?))
}

/// The begin of what the index wants, in one piece.
pub(crate) fn begins(
    alloc: Global,
    servers: &mut Servers,
    before: u32,
) -> Result<Outcome, AllocError> {
    let Some(newest) = servers.store.newest(before)? else {
        return Ok(Outcome::Refused);
    };
    match draft_begin(alloc, &newest, 2) {
        Ok(control) => Ok(applied(servers.store.apply(control)?)),
        Err(BeginFault::Memory) => Err(AllocError),
        Err(BeginFault::NotWanted) => Ok(Outcome::Refused),
    }
}

/// The same in pieces that begin at these keys.
pub(crate) fn divides(
    alloc: Global,
    servers: &mut Servers,
    before: u32,
    keys: &[&[u8]],
) -> Result<Outcome, AllocError> {
    let Some(newest) = servers.store.newest(before)? else {
        return Ok(Outcome::Refused);
    };
    let keys = bytes_of(alloc, keys)?;
    match draft_divide(alloc, &newest, 2, keys.as_slice()) {
        Ok(control) => Ok(applied(servers.store.apply(control)?)),
        Err(DivideFault::Memory) => Err(AllocError),
        Err(_) => Ok(Outcome::Refused),
    }
}

/// The reorganisation and its cursors, as the records have them.
fn progress(alloc: Global, store: &Store, reorg: &Reorg) -> Result<Progress, AllocError> {
    let mut pieces = Vec::new(alloc);
    for (at, (low, high)) in reorg.bounds.as_slice().iter().enumerate() {
        let cursor = match store.cursor(at as u64) {
            Some(cursor) => cursor.clone()?,
            None => low.clone()?,
        };
        pieces.push(Span {
            low: low.clone()?,
            high: high.clone()?,
            cursor,
        })?;
    }
    Ok(Progress {
        element: reorg.element.clone()?,
        kind: reorg.work,
        pieces: List::new(pieces),
    })
}

/// A piece, prepared, and the bounds of all.
type Prepared = (PreparedPiece, List<(Bytes, Bytes)>);

/// A piece of it, read with this limit and prepared.
fn prepared(
    alloc: Global,
    store: &Store,
    piece: u32,
    limit: u32,
) -> Result<Option<Prepared>, AllocError> {
    let Some(reorg) = store.reorg() else {
        return Ok(None);
    };
    let progress = progress(alloc, store, reorg)?;
    let read = match progress.read_piece(alloc, &store.pairs, piece, limit) {
        Ok(read) => read,
        Err(ViewFault::Memory) => return Err(AllocError),
        Err(_) => return Ok(None),
    };
    match prepare_piece(alloc, read) {
        Ok(piece) => Ok(Some((piece, reorg.bounds.clone()?))),
        Err((AllocError, _)) => Err(AllocError),
    }
}

/// One that is kept.
pub(crate) fn reads(
    alloc: Global,
    servers: &mut Servers,
    piece: u32,
    limit: u32,
) -> Result<Outcome, AllocError> {
    servers.piece = prepared(alloc, &servers.store, piece, limit)?;
    Ok(match servers.piece {
        Some(_) => Outcome::Kept,
        None => Outcome::Refused,
    })
}

/// The kept piece is handed in, once more if it was before.
pub(crate) fn moves(alloc: Global, servers: &mut Servers) -> Result<Outcome, AllocError> {
    let Some((piece, bounds)) = &servers.piece else {
        return Ok(Outcome::Refused);
    };
    match draft_piece(alloc, piece, bounds) {
        Ok(control) => {
            let store = &mut servers.store;
            Ok(applied(store.apply_with(alloc, control, piece.expect(), piece.batch())?))
        }
        Err(PieceFault::Memory) => Err(AllocError),
        Err(PieceFault::BadPiece) => Ok(Outcome::Refused),
    }
}
