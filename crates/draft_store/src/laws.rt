//! What a store comes to that has control records and pairs in one map: each is a call without a body,
//! so that a contract names it.
ghost use Rattle.draft_store.specs.OneMap.{OneMap, RunsAreTheSame, RunsAgreeInOneMap, RunsStayOpenInOneMap, RunsHaveLogsInOneMap, MarksAreOnceInOneMap};

/// One map does with a draft what two do, one of control records and one of pairs, if the draft's
/// control records have keys that begin with 0 to 3, and its points, its range and its writes of pairs
/// have other keys: it allows the draft if and only if the two do, and then its control records and
/// its pairs are what the two come to.
pub fn one_map()
    ensures { OneMap }
{}

/// The theorem of `runs_agree_in_bytes`, of one map. After any list of drafts that a `MemoryStore`
/// applied since the opening draft was applied to it when it was empty, its control records and its
/// pairs are those of a store with two maps that applied the same drafts, and so each value under a
/// version's key is the code of a version that has all the pairs that it demands of the applied
/// transactions. There is one version's key with a value, and beside it at most that of the version
/// before it. That the drafts are made by the calls of `drafts` is enough: their keys are apart.
pub fn runs_agree_in_one_map()
    ensures same { RunsAreTheSame }
    ensures agree { RunsAgreeInOneMap }
    ensures stay_open { RunsStayOpenInOneMap }
{}

/// The log that a store with one map mirrors, with an entry for each draft: what `runs_have_logs_in_bytes`
/// says of its control records and its pairs.
pub fn runs_have_logs_in_one_map()
    ensures { RunsHaveLogsInOneMap }
{}

/// A store with one map applies a transaction with a mark once at most, whatever was applied before and
/// between.
pub fn marks_are_once_in_one_map()
    ensures { MarksAreOnceInOneMap }
{}
