//! What comes of drafts: each is a call without a body, so that a contract names it.
ghost use Rattle.drafts.specs.Laws.{DraftsKeep, AllKeep, RunsHaveLogs, RunsReplay, RunsAgree, RunsStayOpen, MarksAreOnce, FreshTxnsApply};
ghost use Rattle.drafts.specs.Given.{GivenBeginsKeep};
ghost use Rattle.drafts.specs.Log.{LogsAgree};

/// A draft that a store applies, whatever reads it was made from, is one more entry of the log that
/// the store mirrors. One with given bounds, for which there is no entry, keeps all the same.
pub fn lemma_drafts_keep()
    ensures logged { DraftsKeep }
    ensures kept { AllKeep }
{}

/// The theorem on drafts. A store applied any list of drafts, one at a time, each only if all that it
/// compares was so. Any servers made them, from any reads, in any order. Then for each version of
/// which the store has a record, each public element has exactly the pairs built from the rows, a
/// delete-only or write-only one only such pairs, an absent one none. The rows are the applied
/// transactions in turn on a plain table. One version is always open, and beside it at most the one
/// before it. It assumes nothing about clocks and leases.
pub fn runs_agree()
    ensures agree { RunsAgree }
    ensures stay_open { RunsStayOpen }
{}

/// The log that a store mirrors, and which nobody keeps: it has an entry for each draft, one after
/// another, which are those of `replay` and, for a begin with given bounds, of which `replay` has
/// none, that begin. The theorem on logs is true of each such log. Without begins at given bounds
/// it is a log of `replay`.
pub fn runs_have_logs()
    ensures logs { RunsHaveLogs }
    ensures agree { LogsAgree }
    ensures replay { RunsReplay }
{}

/// The pieces of a reorganisation may begin at any keys that rows may have, present or not: a begin
/// with given bounds keeps all that the theorem on logs needs, and asks nothing of the pairs.
pub fn lemma_given_begins_keep()
    ensures { GivenBeginsKeep }
{}

/// A transaction with a mark is applied once at most, as long as nobody removes marks. So a draft can
/// be handed in again when it is not known whether the store applied it.
pub fn marks_are_once()
    ensures { MarksAreOnce }
{}

/// A draft of a transaction that was made from what is there is applied, unless its mark is there.
pub fn fresh_txns_apply()
    ensures { FreshTxnsApply }
{}
