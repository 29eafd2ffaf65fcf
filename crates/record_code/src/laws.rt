//! What keys and drafts in bytes come to: each is a call without a body, so that a contract names it.
ghost use Rattle.record_code.specs.Keys.{KeysSay};
ghost use Rattle.record_code.specs.Runs.{OpensStores, RunsAgreeInBytes, RecordsAreRead, RunsStayOpenInBytes, RunsHaveLogsInBytes, MarksAreOnceInBytes};

/// Keys of control records are told apart by their bytes, those of versions rise with their numbers,
/// and none is the key of a pair of rows or indexes: one store, or one prefix of it, has room for
/// both.
pub fn lemma_keys()
    ensures { KeysSay }
{}

/// The theorem on drafts, of a store that compares and writes nothing but bytes. After any list of
/// drafts that it applied one at a time since it was opened: each value under a version's key is read
/// as a version, and each element of that version has the pairs that it demands of the rows, which
/// are the applied transactions in turn on a plain table. Each value under a key of a control record
/// is that of a record of the key's kind. There is one version's key with a value, and beside it at
/// most that of the version before it. The draft of `open_bytes` opens a store that has nothing.
///
/// What it asks of drafts, that their records have codes, `control_bytes`, `txn_bytes` and
/// `piece_bytes` say of each that they hand out.
pub fn runs_agree_in_bytes()
    ensures opens { OpensStores }
    ensures agree { RunsAgreeInBytes }
    ensures read { RecordsAreRead }
    ensures stay_open { RunsStayOpenInBytes }
{}

/// The log that a store of bytes mirrors, and which nobody keeps: it has an entry for each draft, one
/// after another, as `runs_have_logs` of `drafts` says. The values under the keys of control records
/// are the codes of what the log says, and its pairs are those of the store.
pub fn runs_have_logs_in_bytes()
    ensures { RunsHaveLogsInBytes }
{}

/// In a store of bytes too a transaction with a mark is applied once at most, as long as nobody
/// removes marks.
pub fn marks_are_once_in_bytes()
    ensures { MarksAreOnceInBytes }
{}
