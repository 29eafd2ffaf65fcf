//! Calls of servers in turn, each with what has to come of it.

use crate::fixtures::{Change, first_schema};
use crate::model::Store;
use crate::server::{
    Outcome, Servers, begins, closes, divides, hands_in_kept, inserts, keeps, moves, publishes,
    reads,
};
use std::alloc::{AllocError, Global};

/// What is done. A version is told by the number before it.
#[derive(Clone, Copy)]
pub(crate) enum Act {
    /// insert t (ID) set a = 5, under this version, with a mark or none
    Insert(u64, i64, Option<&'static [u8]>),
    /// The same, drafted and kept.
    Keep(u64, i64, Option<&'static [u8]>),
    /// The kept one is handed in.
    HandIn,
    /// A step of the index.
    Publish(u32, Change),
    /// The close of the version before.
    Close(u32),
    /// The begin of what the index wants.
    Begin(u32),
    /// The same in pieces at these keys.
    Divide(u32, &'static [&'static [u8]]),
    /// A piece is read with a limit, and kept.
    Read(u32, u32),
    /// The kept one is handed in.
    Move,
}

fn acted(alloc: Global, servers: &mut Servers, act: Act) -> Result<Outcome, AllocError> {
    match act {
        Act::Insert(number, id, mark) => inserts(alloc, servers, (number, id, mark)),
        Act::Keep(number, id, mark) => keeps(alloc, servers, (number, id, mark)),
        Act::HandIn => hands_in_kept(alloc, servers),
        Act::Publish(before, change) => publishes(alloc, servers, before, change),
        Act::Close(before) => closes(alloc, servers, before),
        Act::Begin(before) => begins(alloc, servers, before),
        Act::Divide(before, keys) => divides(alloc, servers, before, keys),
        Act::Read(piece, limit) => reads(alloc, servers, piece, limit),
        Act::Move => moves(alloc, servers),
    }
}

fn opened_once(alloc: Global) -> Result<Servers, AllocError> {
    let store = Store::opened(alloc, first_schema(alloc)?)?;
    let mut schemas = Vec::new(alloc);
    if let Some(schema) = store.schema(1)? {
        schemas.push((1u64, schema))?;
    }
    Ok(Servers {
        store,
        schemas,
        draft: None,
        piece: None,
    })
}

/// A store with version 1, asked for once more if memory was short.
pub(crate) fn opened(alloc: Global) -> Result<Servers, AllocError> {
    match opened_once(alloc) {
        Err(AllocError) => opened_once(alloc),
        servers => servers,
    }
}

/// Whether this comes of an act. One that found no memory leaves the store as it was, and is done
/// once more.
pub(crate) fn comes(alloc: Global, servers: &mut Servers, act: Act, wanted: Outcome) -> bool {
    let before = servers.store.counts();
    match acted(alloc, servers, act) {
        Ok(outcome) => outcome == wanted,
        Err(AllocError) => {
            servers.store.counts() == before && acted(alloc, servers, act) == Ok(wanted)
        }
    }
}
