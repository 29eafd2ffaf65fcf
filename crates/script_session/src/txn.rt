//! A transaction of a script: it reads, is prepared and is committed at once.
ghost use Rattle.std.specs.Prelude.{◌≡◌, IfOk, string_bytes};
ghost use Rattle.script_names.specs.Names.{resolved_all};
ghost use Rattle.script_replies.specs.Texts.{line};
ghost use Rattle.script_session.specs.Txn.{Transacts, transacted_text};

use crate::prepare::{Preparation, prepare_for};
use crate::session::ServerLease;
use collections::List;
use row_write::PrepareFault;
use script_grammar::Operation;
use script_replies::world::{CommitFault, Committed, World};
use script_replies::{committed_line, rejected_line, unprepared_line};
use std::alloc::{AllocError, Global};

/// How a transaction ended.
pub(crate) enum Transacted {
    /// It was committed, or the rows refused it.
    Ended(Committed),
    /// It could not be prepared.
    Unprepared(PrepareFault),
    /// It was prepared and not committed.
    Rejected(CommitFault),
    /// Memory ran out before it was prepared.
    OutOfMemory,
}

// By hand, so that a caller's proof sees one call and not each variant's.
impl Drop for Transacted {
    fn drop(self) {
        match self {
            Transacted::Ended(_)
            | Transacted::Unprepared(_)
            | Transacted::Rejected(_)
            | Transacted::OutOfMemory => {}
        }
    }
}

/// Reads what the operations need, prepares them and commits.
pub(crate) fn transact(
    alloc: Global,
    world: &mut World,
    held: &ServerLease,
    moment: u64,
    operations: List<Operation>,
) -> Transacted
    ensures { Transacts world.old held.now moment (resolved_all held.now.schema operations) result world.new }
{
    match prepare_for(alloc, world, held, operations) {
        Preparation::Ready(prepared) => match world.commit(alloc, moment, prepared) {
            Ok(done) => Transacted::Ended(done),
            Err((fault, _)) => Transacted::Rejected(fault),
        },
        Preparation::Unprepared(fault) => Transacted::Unprepared(fault),
        Preparation::OutOfMemory => Transacted::OutOfMemory,
    }
}

/// The reply to a transaction.
pub(crate) fn transacted_line(alloc: Global, how: &Transacted) -> Result<String, AllocError>
    ensures { IfOk result (λ text. string_bytes text ≡ line (transacted_text how.now)) }
{
    match how {
        Transacted::Ended(done) => committed_line(alloc, done),
        Transacted::Unprepared(fault) => unprepared_line(alloc, *fault),
        Transacted::Rejected(fault) => rejected_line(alloc, fault),
        Transacted::OutOfMemory => "refused Memory\n".to_string(alloc),
    }
}
