//! A transaction of a script is read and prepared under its server's lease.
ghost use Rattle.std.specs.Prelude.{◌≡◌, IfOk, string_bytes};
ghost use Rattle.script_names.specs.Names.{resolved_all};
ghost use Rattle.script_replies.specs.Texts.{line};
ghost use Rattle.script_session.specs.Prepare.{Prepares, prepared_text};

use crate::session::ServerLease;
use collections::{ArcValue, List};
use row_write::{PrepareFault, Prepared, RowOps, prepare_shared, reads_of};
use schema_version::Schema;
use script_grammar::Operation;
use script_names::resolved_all;
use script_replies::unprepared_line;
use script_replies::world::World;
use std::alloc::{AllocError, Global};

/// What reading and preparing came to.
#[derive(Drop)]
pub(crate) enum Preparation {
    /// It is prepared.
    Ready(Prepared),
    /// It can't be prepared.
    Unprepared(PrepareFault),
    /// Memory ran out before it was prepared.
    OutOfMemory,
}

// The operations with their names looked up, of which the log becomes an owner.
fn shared_ops(
    alloc: Global,
    schema: &Schema,
    operations: List<Operation>,
) -> Result<ArcValue<RowOps>, AllocError>
    ensures { IfOk result (λ ops. ops ≡ resolved_all schema.now operations) }
{
    ArcValue::new(alloc, resolved_all(alloc, schema, operations)?)
}

/// Reads what the operations need and prepares them, by the schema of the server's lease.
pub(crate) fn prepare_for(
    alloc: Global,
    world: &World,
    held: &ServerLease,
    operations: List<Operation>,
) -> Preparation
    ensures { Prepares world.now held.now (resolved_all held.now.schema operations) result }
{
    let Ok(schema) = held.schema.clone() else {
        return Preparation::OutOfMemory;
    };
    let Ok(ops) = shared_ops(alloc, schema.get(), operations) else {
        return Preparation::OutOfMemory;
    };
    let Ok(keys) = reads_of(alloc, schema.get(), ops.get().as_slice()) else {
        return Preparation::OutOfMemory;
    };
    let Ok(view) = world.read(alloc, &keys) else {
        return Preparation::OutOfMemory;
    };
    match prepare_shared(alloc, schema, held.lease, ops, view) {
        Ok(prepared) => Preparation::Ready(prepared),
        Err((fault, _)) => Preparation::Unprepared(fault),
    }
}

/// The reply to a preparation.
pub(crate) fn prepared_line(alloc: Global, how: &Preparation) -> Result<String, AllocError>
    ensures { IfOk result (λ text. string_bytes text ≡ line (prepared_text how.now)) }
{
    match how {
        Preparation::Ready(_) => "ok prepared\n".to_string(alloc),
        Preparation::Unprepared(fault) => unprepared_line(alloc, *fault),
        Preparation::OutOfMemory => "refused Memory\n".to_string(alloc),
    }
}
