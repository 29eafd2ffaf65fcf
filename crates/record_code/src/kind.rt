//! The kinds of control records.
ghost use Rattle.std.specs.Prelude.{◌≡◌, [], ◌∷◌, take};
ghost use Rattle.record_code.specs.Read.{number_of};

use drafts::{Key, KeyName};

/// What the value under the key of a control record is.
#[derive(Clone, Copy, Debug, PartialEq, Eq)]
pub enum RecordKind {
    /// An open version.
    Version,
    /// A begun reorganisation.
    Reorg,
    /// How far a piece has come.
    Cursor,
    /// A transaction that is done.
    Mark,
}

impl RecordKind {
    /// The kind of the record under a key.
    pub fn of(key: &Key) -> RecordKind
        ensures { take 1 key.now ≡ number_of result ∷ [] }
    {
        match key.name() {
            KeyName::Version(_) => RecordKind::Version,
            KeyName::Reorg(_) => RecordKind::Reorg,
            KeyName::Cursor { .. } => RecordKind::Cursor,
            KeyName::Mark(_) => RecordKind::Mark,
        }
    }
}
