//! What each accepted call keeps: each is a call without a body, so that a contract names it.
ghost use Rattle.replay.specs.Headline.{Headline};
ghost use Rattle.replay.specs.Worked.{ALogSays, ALogFollows};
ghost use Rattle.replay.specs.Laws.{OpeningsKeep, LeasesKeep, PublicationsKeep, OutcomesHold, TxnsKeep, RefusedWriteNothing, BeginsKeep, PiecesKeep, KeptAgrees, ItemsStand};

/// An empty store under one sound version keeps all.
pub fn lemma_openings_keep()
    ensures { OpeningsKeep }
{}

/// A lease keeps all, and so does time that goes by.
pub fn lemma_leases_keep()
    ensures { LeasesKeep }
{}

/// A prepared transaction of a version that a lease may still use, whose reads hold, has the
/// outcome that the rows of the log give, however old its reads are. If they accept it, its batch
/// writes what its entry says and keeps all; if they refuse it, its batch writes nothing.
pub fn lemma_transactions_keep()
    ensures outcome { OutcomesHold }
    ensures done { TxnsKeep }
    ensures refused { RefusedWriteNothing }
{}

/// An allowed step, published if no lease on an older version than the newest can be in force and
/// what its moves need is finished, keeps all.
pub fn lemma_publications_keep()
    ensures { PublicationsKeep }
{}

/// A reorganisation that its element wants, begun if every version that a lease may still use has
/// the element in that state, keeps all.
pub fn lemma_begins_keep()
    ensures { BeginsKeep }
{}

/// If all is kept, the items of a live element's fill or clear are the pairs of their range whose
/// value is empty.
pub fn lemma_items_stand()
    ensures { ItemsStand }
{}

/// A prepared piece of a begun reorganisation as it stands, whose expectation holds, writes what
/// its entry says and keeps all.
pub fn lemma_pieces_keep()
    ensures { PiecesKeep }
{}

/// If all is kept, the pairs agree with the rows for every version that a lease may still use.
pub fn lemma_kept_agrees()
    ensures { KeptAgrees }
{}

/// The theorem on a log: after any list of accepted leases, transactions, steps, begins and pieces,
/// for every version that a lease may still use, each public element has exactly the pairs built
/// from the rows, a delete-only or write-only one only such pairs, an absent one none. The rows are
/// the accepted transactions applied in turn to a plain table.
pub fn headline()
    ensures { Headline }
{}

/// What a log with an entry of each kind says, worked out by hand: a lease at 0, an insert at 1, an
/// index that enters delete-only at 10 and goes write-only at 20, a lease on each of their
/// versions, the begin of its fill at 30, a piece that fills the pair of the row, and the step to
/// public. Each entry may follow those before it, so that the theorem speaks of this log.
pub fn a_log_says()
    ensures says { ALogSays }
    ensures follows { ALogFollows }
{}
