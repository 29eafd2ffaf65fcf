//! What a handle may hold. Each kind of calls has its variant.
ghost use Rattle.std.specs.Prelude.{◌≡◌, string_bytes, []};
ghost use Rattle.typed_calls.specs.Session.{nothing_declared as fresh};

use byte_map::KeyMap;
use collections::List;
use reorganise::{PieceView, PreparedPiece};
use row_write::Prepared;
use schema_version::Step;
use std::alloc::Global;
use typed_calls::script_session::{Declarations, Pending, ServerLease};
use typed_calls::world::{Checkpoint, Snapshot};
use typed_calls::{BoundedWorld, Reads};

// A lease's length if no line says it, in moments.
const USUAL_LENGTH: u64 = 10;

/// What a session by lines keeps after its line `open`, besides the world.
#[derive(Drop)]
pub struct Names {
    /// The lease of each server, by its name.
    pub leases: KeyMap<ServerLease>,
    /// What was prepared and is not committed yet, by its name.
    pub pending: KeyMap<Pending>,
    /// The steps of the last plan that were not accepted yet, the next one first.
    pub plan: List<Step>,
}

/// What a session by lines keeps between two lines, besides the world.
#[derive(Drop)]
pub enum Script {
    /// Before its line `open`.
    Declaring(Declarations),
    /// After it.
    Running(Names),
}

/// A session by lines, whose world is in a handle of its own, and the last reply that it gave.
pub struct Conversation {
    /// What it keeps between two lines.
    pub script: Script,
    /// The reply to the last line that was answered.
    pub reply: String,
}

// By hand, so that a caller's proof sees one call and not each field's.
impl Drop for Conversation {
    fn drop(self) {
        let Conversation {
            script: _,
            reply: _,
        } = self;
    }
}

impl Conversation {
    /// A session with this script, and no reply yet.
    pub(crate) fn new(alloc: Global, script: Script) -> Conversation
        ensures script { result.script ≡ script }
        ensures reply { string_bytes result.reply ≡ [] }
    {
        Conversation {
            script,
            reply: String::new(alloc),
        }
    }

    /// The script, and the last reply.
    pub(crate) fn into_parts(self) -> (Script, String)
        ensures { self ≡ record { script = result.0; reply = result.1 } }
    {
        let Conversation { script, reply } = self;
        (script, reply)
    }
}

/// What is declared at the start of a session: nothing.
pub(crate) fn nothing_declared(alloc: Global) -> Declarations
    ensures { result ≡ fresh }
{
    Declarations {
        tables: List::new(Vec::new(alloc)),
        length: USUAL_LENGTH,
    }
}

/// What a handle may hold.
#[derive(Drop)]
pub enum Engine {
    /// A world, and how far a call's moment may be beyond that of its last entry.
    World(BoundedWorld),
    /// A session by lines.
    Session(Conversation),
    /// A lease.
    Lease(ServerLease),
    /// The operations of a transaction, and what they read.
    Reads(Reads),
    /// A prepared transaction.
    Txn(Prepared),
    /// What a world held at a moment.
    Snapshot(Snapshot),
    /// Bytes that a call gave: rows, a schema, the bytes of a checkpoint, an entry.
    Bytes(List<u8>),
    /// The items of a piece of a reorganisation, as they were read.
    Piece(PieceView),
    /// A prepared piece.
    PreparedPiece(PreparedPiece),
    /// The checkpoint of a world.
    Checkpoint(Checkpoint),
}
