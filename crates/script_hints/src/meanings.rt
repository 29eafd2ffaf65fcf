//! What each refusal means.
use script_mistakes::row_of;

/// A refusal and what it means. `{1}` and `{2}` are its numbers, `{e}` is the element of the first,
/// `{s}` the server or work of the line, `{t}` its element, and `{m}` the last moment.
const MEANINGS: &str = "\
NoServer|{s} has no lease; lease {s} at {m} grants one\n\
NoWork|nothing is prepared as {s}\n\
NoPlan|no step of a plan is left; plan: .. makes one\n\
MomentTooLarge|a moment is at most 4611686018427387904\n\
BadLease|no such lease was granted; take a new lease: lease {s} at {m}\n\
LeaseEnded|the lease ended at {1}, and it is {2}; take a new lease: lease {s} at {2}\n\
BadLease of work|no such lease was granted; take a new lease and prepare it again\n\
LeaseEnded of work|the lease ended at {1}, and it is {2}; take a new lease and prepare it \
again\n\
WrongSchema|it was prepared by another schema than that of its lease\n\
TooManyOps|a transaction has at most 64 operations\n\
TooEarly|the newest version has to stay the newest until moment {1}\n\
TooEarly of next|the newest version has to stay the newest until moment {1}: `next at {1}`\n\
NotAdjacent|the states are absent, delete_only, write_only, public; a step moves by one of \
them, and a column without a default is never write_only\n\
WrongWay|it is on its way in the other direction\n\
Dependent|it depends on {e}, or {e} on it\n\
NameTaken|the table has an element or a key column of that name\n\
Limit|a table has at most 32 columns and 16 indexes, an index 1 to 4 columns and a name 1 to 32 \
bytes; a default is a value of the column's type\n\
VersionsSpent|no version number is left\n\
StillIndexed|an index has the column: drop that index first, or in the same plan\n\
InChange|it is being added or dropped; progress shows it\n\
NotWanted|it wants no such fill or clear now, or none has begun; progress shows it\n\
StillUsed|a version that has it in another state may be in use until moment {1}\n\
Begun|it has begun; work {t} at {m} limit 1000 ends it\n\
BadCount|1 to 64 pieces\n\
BadPiece|it has no such piece; the first is piece 0\n\
Spent|the piece has ended\n\
BadLimit|a limit is from 1 to 1000\n\
WrongElement|it was prepared for another reorganisation\n\
Moved|another commit moved the piece on; prepare it again\n\
BadTable|1 to 16 tables, each with 1 to 4 key columns, at most 32 others and 16 indexes of 1 to \
4 columns; names are of 1 to 32 bytes, and each is there once; all must be declared again\n\
BadLength|a length is from 1 to 4294967296; all must be declared again\n\
Memory|out of memory\n";

/// What a refusal means; empty if there is nothing to say.
///
/// - `name`: the refusal; a lease's with ` of work`, since the line does not name the server then, and
///   `TooEarly of next`.
pub(crate) fn meaning_of(name: &str) -> &'static str {
    row_of(MEANINGS, name).unwrap_or("")
}
