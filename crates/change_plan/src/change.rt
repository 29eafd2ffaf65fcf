//! The changes that a batch asks for.
use collections::List;
use keycode::Text;
use schema_version::Kind;

/// One change of a schema, by names. A batch of them is planned as one: an index may be added over
/// columns that the batch adds, and a column may be dropped with the indexes that list it, dropped
/// or abandoned. `table` is the number of a table, from 1.
#[derive(Clone, PartialEq, Eq)]
pub enum Change {
    /// A new index of the table over these columns, live or added by the batch, in this order.
    AddIndex {
        table: u32,
        name: Text,
        columns: List<Text>,
    },
    /// The table's index of this name goes.
    DropIndex {
        table: u32,
        name: Text,
    },
    /// A new column of the table. Its kind is that of a column: an index is Unknown.
    AddColumn {
        table: u32,
        name: Text,
        kind: Kind,
    },
    /// The table's column of this name goes.
    DropColumn {
        table: u32,
        name: Text,
    },
    /// The table's index or column of this name, which is being added and isn't public yet, turns
    /// back and goes. The batch counts it as dropped.
    Abandon {
        table: u32,
        name: Text,
    },
}

// By hand, so that a caller's proof sees one call and not each variant's.
impl Drop for Change {
    fn drop(self) {
        match self {
            Change::AddIndex {
                table: _,
                name: _,
                columns: _,
            }
            | Change::DropIndex { table: _, name: _ }
            | Change::AddColumn {
                table: _,
                name: _,
                kind: _,
            }
            | Change::DropColumn { table: _, name: _ }
            | Change::Abandon { table: _, name: _ } => {}
        }
    }
}
