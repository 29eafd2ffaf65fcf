//! The draft that opens a store.
ghost use Rattle.std.specs.Prelude.{◌≡◌};
ghost use Rattle.layer_calls.specs.Given.{With, GivesOpening};
ghost use Rattle.layer_calls.specs.Opening.{OpensWith};

use crate::given;
use crate::outcome::{LayerOutcome, LayerReply};
use handles::typed_calls::status::{BAD_TABLE, OUT_OF_MEMORY};
use record_code::open_bytes;
use schema_version::{DeclareFault, TableDef};
use std::alloc::Global;

// The draft that opens a store with these tables.
fn open_with(alloc: Global, tables: &[TableDef]) -> Result<LayerReply, LayerOutcome>
    ensures { OpensWith tables.now result }
{
    match open_bytes(alloc, tables) {
        Ok(code) => Ok(LayerReply::of(code)),
        Err(DeclareFault::BadTable) => Err(LayerOutcome::of(BAD_TABLE)),
        Err(DeclareFault::Memory) => Err(LayerOutcome::of(OUT_OF_MEMORY)),
    }
}

/// The code of the draft that opens a store with declared tables: version 1 is missing, and is then
/// put. Whatever else is under the store's prefix is for the program to compare.
///
/// - `opening`: what `entry_code::opening_bytes` gives for the tables. Its lease length is not used,
///   since nobody holds a lease.
///
/// Refused, in this order: `BAD_CODE` if the bytes are the code of no opening; `BAD_TABLE` if the
/// declaration breaks a limit or uses a name twice; `OUT_OF_MEMORY`, which may come in place of
/// `BAD_CODE`.
pub fn open(alloc: Global, opening: &[u8]) -> Result<LayerReply, LayerOutcome>
    ensures { With GivesOpening (λ o a. OpensWith o.1 a) opening.now result }
{
    let (_, tables) = given::opening(alloc, opening)?;
    open_with(alloc, tables.as_slice())
}
