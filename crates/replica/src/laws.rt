//! What repeating comes to: each law is a call without a body, so that a contract names it.
ghost use Rattle.replica.specs.Laws.{WorldsAreTheirLogs, RepeatsAreEqual, AcceptedAreNext, AcceptedHaveEffect, LogsRepeat, LogsAreNeverRefused};

/// Two worlds that were opened alike and have the same log are equal: opening, log and pairs. So
/// are two worlds that were equal and then repeated the same entries. `World::lemma_agrees` tells
/// the premise of the first.
pub fn lemma_worlds_are_their_logs()
    ensures logs { WorldsAreTheirLogs }
    ensures repeats { RepeatsAreEqual }
{}

/// Whatever entry an accepted call added is one that a world in the state before the call repeats,
/// except when out of memory, and that world is then in the state after the call.
///
/// `Prepared::lemma_made` and `PreparedPiece::lemma_made` tell the premise on what was prepared.
pub fn lemma_accepted_calls_repeat()
    ensures next { AcceptedAreNext }
    ensures effect { AcceptedHaveEffect }
{}

/// Whatever list of entries one world logged, from its opening on, another world that was opened
/// alike repeats to its end, except when out of memory, and is then equal to the first one.
pub fn lemma_logs_repeat()
    ensures equal { LogsRepeat }
    ensures never_refused { LogsAreNeverRefused }
{}
