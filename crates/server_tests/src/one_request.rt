//! One request through a port that refuses calls of chosen numbers.
ghost use Rattle.std.specs.Prelude.{◌≡◌, ◌+◌, vec_len};
ghost use Rattle.server.specs.Outcomes.{CommitSays, Keeps, given_by};

use crate::table::{insert, mark, opened};
use Answer::{Conflict, LeaseEnded, Memory};
use byte_map::Bytes;
use collections::ArcValue;
use lease::Lease;
use row_map::{ReadSet, ReadView};
use row_write::Prepared;
use schema_version::Schema;
use server::locked_store::SharedFault;
use server::world::{CommitFault, Committed, GrantFault, Receipt, World};
use server::{
    Last, Outcome, Port, Request, Tally, last_of_commit, last_of_grant, last_of_read, serve_one,
};
use std::alloc::{AllocError, Global};

/// How a call is answered: as the port's world answers it, or by a refusal, if that call has one.
#[derive(Clone, Copy)]
pub(crate) enum Answer {
    Own,
    Conflict,
    LeaseEnded,
    Memory,
}

/// Calls by their numbers, counted from 1, with their answers. Every other call is answered as the
/// port's world answers it.
pub(crate) type Answers = &'static [(u32, Answer)];

/// A port over a world of its own. It keeps the receipts of its leases, which it grants at rising
/// moments, a mark for each transaction that it committed, and which lease each try used.
#[derive(Drop)]
pub(crate) struct Stubborn {
    world: World,
    answers: Answers,
    calls: u32,
    kept_receipts: Vec<Receipt>,
    committed: Vec<()>,
    used: u64,
    tally: Tally,
}

// One call more, and its answer.
fn next_answer(answers: Answers, calls: &mut u32) -> Answer {
    *calls = calls.wrapping_add(1);
    for (call, answer) in answers {
        if *call == *calls {
            return *answer;
        }
    }
    Answer::Own
}

// A conflict at the empty key.
fn conflict(alloc: Global) -> CommitFault {
    match Bytes::new(Vec::new(alloc)) {
        Ok(key) => CommitFault::Conflict { key },
        Err(AllocError) => CommitFault::Memory,
    }
}

// With what a commit is refused.
fn refusal(alloc: Global, answer: Answer, moment: u64) -> Option<CommitFault> {
    match answer {
        Answer::Own => None,
        Answer::Conflict => Some(conflict(alloc)),
        Answer::LeaseEnded => Some(CommitFault::LeaseEnded {
            until: moment,
            now: moment,
        }),
        Answer::Memory => Some(CommitFault::Memory),
    }
}

// What the port's world makes of a commit, its mark's room made first.
#[tactic(auto, using(crate::proofs::Words::refuses))]
fn commits(
    alloc: Global,
    world: &mut World,
    committed: &mut Vec<()>,
    moment: u64,
    prepared: Prepared,
) -> Result<Committed, (SharedFault<CommitFault>, Prepared)>
    ensures counted { vec_len committed.new ≡ vec_len committed.old + given_by result }
    ensures says { CommitSays (λ said. Unit {0}) moment prepared.ops result }
{
    if committed.reserve(1).is_err() {
        return Err((SharedFault::World(CommitFault::Memory), prepared));
    }
    match world.commit(alloc, moment, prepared) {
        Ok(Committed::Done(receipt)) => {
            committed.push_reserved(());
            Ok(Committed::Done(receipt))
        }
        Ok(Committed::Refused { op, why }) => Ok(Committed::Refused { op, why }),
        Err((fault, prepared)) => Err((SharedFault::World(fault), prepared)),
    }
}

// What the port's world makes of a lease, whose receipt is kept.
fn leases(
    alloc: Global,
    world: &mut World,
    kept_receipts: &mut Vec<Receipt>,
    moment: u64,
) -> Result<(Lease, ArcValue<Schema>), SharedFault<GrantFault>>
    ensures keeps { Keeps (λ said. Unit {0}) kept_receipts.old.items result kept_receipts.new.items }
{
    if kept_receipts.reserve(1).is_err() {
        return Err(SharedFault::World(GrantFault::Memory));
    }
    // the first at 0, the second at 1, and so on, so that each tells which it is
    let later = moment.max((kept_receipts.len() as u64).min(9));
    match world.lease(alloc, later) {
        Ok(grant) => {
            kept_receipts.push_reserved(grant.receipt);
            Ok((grant.lease, grant.schema))
        }
        Err(fault) => Err(SharedFault::World(fault)),
    }
}

// One digit more: the number of the lease, counted from 1.
fn with_digit(used: u64, lease: &Lease) -> u64 {
    used.wrapping_mul(10)
        .wrapping_add(lease.granted)
        .wrapping_add(1)
}

impl Port for Stubborn {
    ghost use Rattle.std.specs.Prelude.{◌+◌, length};

    ghost id = { λ p. (0, 0) };

    ghost tally = { λ p. p.tally };

    ghost count = { λ p. length p.committed.items + length p.kept_receipts.items };

    ghost refused = { λ p. p.tally.retries };

    ghost front = { λ p. 0 };

    ghost kept_receipts = { λ p. p.kept_receipts.items };

    ghost has_seen = { λ m front. Unit {0} };

    ghost may = { λ f m said. Unit {0} };

    #[tactic(auto, using(crate::proofs::Words::grants))]
    fn lease(
        &mut self,
        alloc: Global,
        moment: u64,
    ) -> Result<(Lease, ArcValue<Schema>), SharedFault<GrantFault>> {
        let answer = match next_answer(self.answers, &mut self.calls) {
            Answer::Memory => Err(SharedFault::World(GrantFault::Memory)),
            _ => leases(alloc, &mut self.world, &mut self.kept_receipts, moment),
        };
        self.tally.note(last_of_grant(&answer));
        answer
    }

    #[tactic(auto, using(crate::proofs::Words::reads))]
    fn read(&mut self, alloc: Global, keys: &ReadSet) -> Result<ReadView, SharedFault<AllocError>> {
        let answer = match next_answer(self.answers, &mut self.calls) {
            Answer::Memory => Err(SharedFault::World(AllocError)),
            _ => match self.world.read(alloc, keys) {
                Ok(view) => Ok(view),
                Err(fault) => Err(SharedFault::World(fault)),
            },
        };
        self.tally.note(last_of_read(&answer));
        answer
    }

    #[tactic(auto, using(crate::proofs::Words::refuses))]
    fn commit(
        &mut self,
        alloc: Global,
        moment: u64,
        prepared: Prepared,
    ) -> Result<Committed, (SharedFault<CommitFault>, Prepared)> {
        self.used = with_digit(self.used, prepared.lease());
        let chosen = next_answer(self.answers, &mut self.calls);
        let answer = match refusal(alloc, chosen, moment) {
            Some(fault) => Err((SharedFault::World(fault), prepared)),
            None => commits(
                alloc,
                &mut self.world,
                &mut self.committed,
                moment,
                prepared,
            ),
        };
        self.tally.note(last_of_commit(&answer));
        answer
    }

    fn tally(&self) -> Tally {
        self.tally
    }
}

/// What became of a request: the place of its entry, or the number of tries that Busy tells, or
/// neither if memory ran out; then how many retries the port counted, how many entries its world
/// has, and which lease each try used, by one digit each.
type Ending = (Option<u64>, Option<u32>, u64, usize, u64);

/// A port over a world, of these answers.
pub(crate) fn port(alloc: Global, world: World, answers: Answers) -> Stubborn {
    Stubborn {
        world,
        answers,
        calls: 0,
        kept_receipts: Vec::new(alloc),
        committed: Vec::new(alloc),
        used: 0,
        tally: Tally {
            retries: 0,
            last: Last::Nothing,
        },
    }
}

impl Stubborn {
    /// The port's world.
    pub(crate) fn into_world(self) -> World {
        let Stubborn {
            world,
            answers: _,
            calls: _,
            kept_receipts: _,
            committed: _,
            used: _,
            tally: _,
        } = self;
        world
    }
}

// How a request ended, by its outcome.
fn ending_of(outcome: &Outcome, port: &Stubborn) -> Option<Ending> {
    let (retries, entries, used) = (port.tally().retries, port.world.log().len(), port.used);
    match outcome {
        Outcome::Done(receipt) => Some((Some(receipt.place), None, retries, entries, used)),
        Outcome::Busy { tries } => Some((None, Some(*tries), retries, entries, used)),
        Outcome::Memory => Some((None, None, retries, entries, used)),
        _ => None,
    }
}

/// What becomes of a request through a port that has counted no retry yet, with so many tries.
pub(crate) fn outcome_of(
    alloc: Global,
    port: &mut Stubborn,
    request: &Request,
    tries: u32,
) -> Option<Outcome> {
    if tries < 1 || tries > 1000 || port.tally().retries != 0 {
        return None;
    }
    Some(serve_one(alloc, port, request, tries))
}

// How it ends.
fn ended(alloc: Global, port: &mut Stubborn, request: &Request, tries: u32) -> Option<Ending> {
    let outcome = outcome_of(alloc, port, request, tries)?;
    ending_of(&outcome, port)
}

// What becomes of the insert of key 1 through a port of these answers, with so many tries.
fn served_once(alloc: Global, answers: Answers, tries: u32) -> Option<Ending> {
    let request = insert(alloc, 1).ok()?;
    let mut port = port(alloc, opened(alloc).ok()?, answers);
    ended(alloc, &mut port, &request, tries)
}

// Whether that becomes of it; in another port alike if memory was short.
fn is_served(alloc: Global, answers: Answers, tries: u32, ending: Ending) -> bool {
    let first = served_once(alloc, answers, tries);
    if first == Some(ending) {
        return true;
    }
    match first {
        None | Some((None, None, _, _, _)) => served_once(alloc, answers, tries) == Some(ending),
        Some(_) => false,
    }
}

// Answers, how many tries, and what becomes of the request. A try is a lease, if none is at hand, a
// read and a commit: after a conflict the next try begins with its read under the same lease, after
// the end of a lease with a new one, which is one entry more.
static CASES: [(Answers, u32, Ending); 19] = [
    (&[], 1, (Some(2), None, 0, 2, 1)),
    (&[(1, Memory)], 2, (None, None, 0, 0, 0)),
    (&[(2, Memory)], 2, (None, None, 0, 1, 0)),
    (&[(3, Memory)], 2, (None, None, 0, 1, 1)),
    (&[(3, Conflict)], 1, (None, Some(1), 1, 1, 1)),
    (&[(3, Conflict)], 2, (Some(2), None, 1, 2, 11)),
    (&[(3, LeaseEnded)], 1, (None, Some(1), 1, 1, 1)),
    (&[(3, LeaseEnded)], 2, (Some(3), None, 1, 3, 12)),
    (&[(3, Conflict), (4, Memory)], 2, (None, None, 1, 1, 1)),
    (&[(3, LeaseEnded), (4, Memory)], 2, (None, None, 1, 1, 1)),
    (&[(3, Conflict), (5, Memory)], 2, (None, None, 1, 1, 11)),
    (
        &[(3, Conflict), (5, LeaseEnded)],
        2,
        (None, Some(2), 2, 1, 11),
    ),
    (
        &[(3, Conflict), (5, LeaseEnded)],
        3,
        (Some(3), None, 2, 3, 112),
    ),
    (
        &[(3, LeaseEnded), (6, Conflict)],
        2,
        (None, Some(2), 2, 2, 12),
    ),
    (
        &[(3, LeaseEnded), (6, Conflict)],
        3,
        (Some(3), None, 2, 3, 122),
    ),
    (
        &[(3, Conflict), (5, Conflict), (7, Conflict)],
        3,
        (None, Some(3), 3, 1, 111),
    ),
    (
        &[(3, Conflict), (5, Conflict), (7, Conflict)],
        4,
        (Some(2), None, 3, 2, 1111),
    ),
    (
        &[(3, LeaseEnded), (6, LeaseEnded), (9, LeaseEnded)],
        3,
        (None, Some(3), 3, 3, 123),
    ),
    (
        &[(3, LeaseEnded), (6, LeaseEnded), (9, LeaseEnded)],
        4,
        (Some(5), None, 3, 5, 1234),
    ),
];

#[test]
fn under_refusal_a_request_is_tried_again(rt: HostRuntime) {
    assert!(rt; mark(&rt));
    for (row, (answers, tries, ending)) in CASES.iter().enumerate() {
        assert!(rt;
            is_served(rt.alloc(), answers, *tries, *ending),
            "row {row}"
        );
    }
}
