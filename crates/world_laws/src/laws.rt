//! What follows from the contracts of the core's calls.
ghost use Rattle.world_laws.specs.Recent.{CommitsAreRecent, QueriesAreRecent};
ghost use Rattle.world_laws.specs.Found.{FindsConsistent, FindsExact, FindsEmpty};
ghost use Rattle.world_laws.specs.Clean.{ChecksAreClean};
ghost use Rattle.world_laws.specs.Shared.{SharedCommitsAreRecent, SharedQueriesAreRecent, SharedSnapshotsAreRecent, SharedSnapshotsAnswerTheirLog, SharedSnapshotChecksAreClean, SharedChecksAreClean, SharedPublicationsFindConsistent, SharedPublicationsFindExact, SharedPublicationsFindEmpty};
ghost use Rattle.world_laws.specs.Snapshots.{SnapshotsAnswerTheirLog, SnapshotsAnswerAsQueries, SnapshotsCheckTheirLog, SnapshotsAreRecent};

/// A transaction that is accepted, whether it is committed or its rows refuse it, and a query that
/// is answered run on the newest version or on the one before it, never on an older one.
///
/// `World::timeline` tells the premises: that the timeline is valid, and that the newest version
/// was published at the moment of the last entry or before, which is not after the moment that
/// counts.
pub fn commits_are_recent()
    ensures commits { CommitsAreRecent }
    ensures queries { QueriesAreRecent }
{}

/// A publication moves no pair and no row: the store as it was before is consistent with the
/// version after it. So an element that is public after it had exactly the pairs that the rows give
/// it already, and one that is absent after it had none.
///
/// Of the World after the call `World::timeline` tells that the timeline is valid, and
/// `World::lemma_agrees` that the pairs agree with the rows.
pub fn publications_find_exact()
    ensures consistent { FindsConsistent }
    ensures public { FindsExact }
    ensures absent { FindsEmpty }
{}

/// An audit finds the store clean: no pair is missing, none is there without a reason, and it
/// counts as many rows as the log has.
///
/// The premises are reported of every World by `World::timeline` (a valid timeline, with the newest
/// version published at the moment of the last entry or before), by `World::lemma_agrees` (the
/// pairs agree with the rows), and by `Schema::lemma_known` of what `World::newest` gives (a sound
/// version).
pub fn checks_are_clean()
    ensures { ChecksAreClean }
{}

/// Whenever a snapshot is asked, the rows that it finds are the plain answer over the rows of the
/// log at which it was taken, as its version sees them, with the default of a required column if a
/// row has no value of its own. All that it answers, refusals too, is what `World::query` may
/// answer there under the same lease at the same moment. A check of it counts what `World::check`
/// counts there. No accepted snapshot is under a version older than the one before the newest.
///
/// `World::snapshot` tells the premise of the snapshot, `Snapshot::query` and `Snapshot::check`
/// those of its answers, and `World::timeline` those of the last clause, as with
/// `commits_are_recent`.
pub fn snapshots_answer_their_log()
    ensures found { SnapshotsAnswerTheirLog }
    ensures answers { SnapshotsAnswerAsQueries }
    ensures checks { SnapshotsCheckTheirLog }
    ensures recent { SnapshotsAreRecent }
{}

/// The same of what is answered through the lock of a shared world, each of the very state in which
/// the call was answered: what is accepted or answered runs on a recent version, a snapshot answers
/// from the log at which it was taken, an audit of the world or of a snapshot is clean, and a
/// publication finds the pairs that the version after it demands.
///
/// The calls of `Shared` tell the premises: their answers are those of a state that the world
/// behind the lock may have, whose timeline is valid, whose last publication is not after its
/// moment, and whose newest version is sound.
pub fn shared_answers_are_lawful()
    ensures commits { SharedCommitsAreRecent }
    ensures queries { SharedQueriesAreRecent }
    ensures snapshots { SharedSnapshotsAreRecent }
    ensures answers { SharedSnapshotsAnswerTheirLog }
    ensures snapshot_checks { SharedSnapshotChecksAreClean }
    ensures checks { SharedChecksAreClean }
    ensures consistent { SharedPublicationsFindConsistent }
    ensures public { SharedPublicationsFindExact }
    ensures absent { SharedPublicationsFindEmpty }
{}
