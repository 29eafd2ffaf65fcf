//! The statuses of the calls, and their texts.
ghost use Rattle.std.specs.Prelude.{◌≡◌, get_or, map};
ghost use Rattle.typed_calls.specs.Statuses.{no_text, status_text};

/// The call did what it is for.
pub const OK: i32 = 0;
/// The line has its reply, and that is `bad line`.
pub const BAD_LINE: i32 = 1;
/// The handle is closed.
pub const CLOSED: i32 = 2;
/// The handle is open already.
pub const ALREADY_OPEN: i32 = 3;
/// The line is not UTF-8.
pub const NOT_UTF8: i32 = 4;
/// Memory ran out.
pub const OUT_OF_MEMORY: i32 = 5;
/// The log has no such place.
pub const NO_ENTRY: i32 = 7;
/// The bytes are the code of no entry.
pub const BAD_ENTRY: i32 = 8;
/// No accepted call of this world would add the entry.
pub const NOT_NEXT: i32 = 9;
/// Changes are under way, and nothing can be done yet.
pub const WAITING: i32 = 10;
/// No change is under way.
pub const FINISHED: i32 = 11;
/// The pieces are not 1 to 64, or the limit is not 1 to 1,000.
pub const BAD_COUNT: i32 = 12;
/// The moment is above 2^62.
pub const MOMENT_TOO_LARGE: i32 = 13;
/// A publication is due, and no version is left.
pub const VERSIONS_SPENT: i32 = 14;
/// The bytes are no code of what they should be.
pub const BAD_CODE: i32 = 17;
/// A declaration breaks a limit, or uses a name twice.
pub const BAD_TABLE: i32 = 18;
/// The lease length is not from 1 to 2^32.
pub const BAD_LENGTH: i32 = 19;
/// The lease's version has no such table.
pub const NO_TABLE: i32 = 20;
/// A named column is not a public column of its table.
pub const NOT_PUBLIC: i32 = 21;
/// A value is of another type than its column, or a column is named twice.
pub const WRONG_TYPE: i32 = 22;
/// There are more than 64 operations.
pub const TOO_MANY_OPS: i32 = 23;
/// What was read is not what the transaction reads.
pub const VIEW_MISMATCH: i32 = 24;
/// No grant could have given the lease.
pub const BAD_LEASE: i32 = 25;
/// The lease has ended.
pub const LEASE_ENDED: i32 = 26;
/// It was prepared under another schema than that of its lease's version.
pub const WRONG_SCHEMA: i32 = 27;
/// A pair changed since it was read.
pub const CONFLICT: i32 = 28;
/// An insert of a key that is there.
pub const DUPLICATE: i32 = 29;
/// An update or a delete of a key that is not there.
pub const NO_ROW: i32 = 30;
/// The newest version has not been the newest for a full lease length.
pub const TOO_EARLY: i32 = 31;
/// A step names no table, element or column that is there.
pub const UNKNOWN: i32 = 32;
/// No move joins the two states.
pub const NOT_ADJACENT: i32 = 33;
/// A move of the other way.
pub const WRONG_WAY: i32 = 34;
/// Another element stands against it.
pub const DEPENDENT: i32 = 35;
/// The name is taken.
pub const NAME_TAKEN: i32 = 36;
/// A name, a list, a default or a count is over its limit.
pub const OVER_LIMIT: i32 = 37;
/// A reorganisation that the step needs is not finished.
pub const UNFINISHED: i32 = 38;
/// The element wants no reorganisation, or none of it has begun.
pub const NOT_WANTED: i32 = 39;
/// The version before may still be used.
pub const STILL_USED: i32 = 40;
/// The reorganisation has begun.
pub const BEGUN: i32 = 41;
/// The reorganisation has no such piece.
pub const BAD_PIECE: i32 = 42;
/// The piece has ended.
pub const SPENT: i32 = 43;
/// The piece is not one of the element's reorganisation.
pub const WRONG_ELEMENT: i32 = 44;
/// The piece has moved since it was read.
pub const MOVED: i32 = 45;
/// An element that a change names is in change.
pub const IN_CHANGE: i32 = 46;
/// The moment is further beyond that of the last entry than the world allows.
pub const TOO_FAR: i32 = 47;

// The texts of the statuses, in the order of their numbers; 6, 15 and 16 are none.
const TEXTS: [&str; 48] = [
    "ok",
    "bad line",
    "the handle is closed",
    "the handle is open already",
    "the line is not UTF-8",
    "out of memory",
    "no status",
    "the log has no such place",
    "the bytes are the code of no entry",
    "no call of this world would add the entry",
    "changes are under way, and nothing can be done yet",
    "no change is under way",
    "the pieces are not 1 to 64, or the limit is not 1 to 1,000",
    "the moment is above 2^62",
    "no version is left",
    "no status",
    "no status",
    "the bytes are no code of what they should be",
    "the declaration breaks a limit, or uses a name twice",
    "the lease length is not from 1 to 2^32",
    "no such table",
    "a named column is not a public column of its table",
    "a value of another type, or a column named twice",
    "more than 64 operations",
    "what was read is not what the transaction reads",
    "no grant could have given the lease",
    "the lease has ended",
    "prepared under another schema than that of the lease's version",
    "a pair changed since it was read",
    "a row of this key is there",
    "no row of this key is there",
    "the newest version has not been the newest for a full lease length",
    "no such table, element or column",
    "no move joins the two states",
    "a move of the other way",
    "another element stands against it",
    "the name is taken",
    "a name, a list, a default or a count is over its limit",
    "a reorganisation that the step needs is not finished",
    "the element wants no reorganisation, or none has begun",
    "the version before may still be used",
    "the reorganisation has begun",
    "no such piece",
    "the piece has ended",
    "the piece is not one of the element's reorganisation",
    "the piece has moved since it was read",
    "an element that a change names is in change",
    "the moment is further beyond that of the last entry than the world allows",
];

// The text of this place.
fn text_at(texts: &[&'static str], at: usize) -> &'static str
    ensures { result.now ≡ get_or (map (λ text. text.now) texts.now) at no_text }
{
    match texts.get(at) {
        Some(text) => text,
        None => "no status",
    }
}

/// The text of a status; any number has one.
pub fn text_of(status: i32) -> &'static str
    ensures { result.now ≡ status_text status }
{
    match usize::try_from(status) {
        Ok(at) => text_at(&TEXTS, at),
        Err(_) => "no status",
    }
}
