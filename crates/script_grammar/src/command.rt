//! The commands of a script.
use crate::columns::Columns;
use crate::element::ElementName;
use crate::named::{NamedChange, NamedMove};
use crate::operation::Operation;
use crate::selection::Selection;
use collections::List;
use keycode::Text;

/// What a line asks for. Names stay names: what they stand for is the caller's to look up. A moment
/// is a point of the script's own time, which it counts in whole numbers.
#[derive(Drop)]
pub enum Command {
    /// `length N`: a lease's length, in moments.
    Length(u64),
    /// `table NAME ( COLUMN TYPE key {, COLUMN TYPE key} {, COLUMN TYPE} )`: the primary key's
    /// columns, of which there is one at least, and the others.
    Table {
        name: Text,
        key: Columns,
        columns: Columns,
    },
    /// `index NAME on TABLE ( COLUMN {, COLUMN} )`
    Index {
        name: Text,
        table: Text,
        columns: List<Text>,
    },
    /// `open`: the world of the tables and indexes that were declared.
    Open,
    /// `lease SERVER at M`: a lease of the newest schema version, from the moment M on.
    Lease {
        server: Text,
        moment: u64,
    },
    /// `txn SERVER at M: OPERATION {; OPERATION}`: a transaction under the server's lease.
    Txn {
        server: Text,
        moment: u64,
        operations: List<Operation>,
    },
    /// `pairs`: every pair of the store.
    Pairs,
    /// `check`: whether the pairs are those of the rows.
    Check,
    /// `log`: how many entries the log has.
    Log,
    /// `prepare WORK by SERVER: OPERATION {; OPERATION}`: a transaction under the server's lease,
    /// to be committed later under that name.
    Prepare {
        name: Text,
        server: Text,
        operations: List<Operation>,
    },
    /// `commit WORK at M`: what was prepared under that name.
    Commit {
        name: Text,
        moment: u64,
    },
    /// `query SERVER at M: select COLUMN {, COLUMN} from TABLE [where COND {and COND}]`, or `*` in
    /// place of the columns: the rows that are asked for, under the server's lease.
    Query {
        server: Text,
        moment: u64,
        selection: Selection,
    },
    /// `forge SERVER version V granted G until U`: a lease of these numbers for the server, whether
    /// it was granted or not.
    Forge {
        server: Text,
        version: u64,
        granted: u64,
        until: u64,
    },
    /// `piece WORK of TABLE.NAME N limit K`: at most K entries of the piece N of an element's
    /// reorganisation, to be committed later under that name.
    Piece {
        name: Text,
        element: ElementName,
        piece: u32,
        limit: u32,
    },
    /// `publish at M: MOVE {; MOVE}`: the next schema version, by one step that makes these moves.
    Publish {
        moment: u64,
        moves: List<NamedMove>,
    },
    /// `plan: CHANGE {; CHANGE}`: the plan of steps that brings these changes about.
    Plan {
        changes: List<NamedChange>,
    },
    /// `next at M`: the next step of the plan, published.
    Next {
        moment: u64,
    },
    /// `reorganise TABLE.NAME at M pieces N`: the begin of an element's reorganisation in N pieces.
    Reorganise {
        element: ElementName,
        moment: u64,
        pieces: u32,
    },
    /// `work TABLE.NAME at M limit K`: the pieces of an element's reorganisation one after the
    /// other, each to its end, at most K entries a commit.
    Work {
        element: ElementName,
        moment: u64,
        limit: u32,
    },
    /// `status`: the elements with their states, the newest version, and the versions that are
    /// usable.
    Status,
}
