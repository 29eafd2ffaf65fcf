//! Commits of a critical section, which count the entry that they add.
ghost use Rattle.std.specs.Prelude.{◌≡◌, ◌+◌, ◌≤◌};
ghost use Rattle.locked_store.specs.Answers.{CountsBack, commit_place, piece_place};
ghost use Rattle.rollout.specs.Calls.{CommitStep, given_back};
ghost use Rattle.rollout.specs.Piece.{PieceStep};
ghost use Rattle.rollout.specs.State.{entry_count};

use crate::handle::Handle;
use crate::rights::Books;
use crate::shared_ledger::SharedLedger;
use reorganise::PreparedPiece;
use rollout::world::{CommitFault, Committed, PieceDone, PieceFault, World};
use row_write::Prepared;
use std::alloc::Global;

/// How many entries there were ever.
pub(crate) fn log_len(world: &World) -> u64
    ensures { result ≡ entry_count world.now }
{
    world.log_len()
}

/// Commits, counts the entry, if there is one, or the refusal, and moves the front to the length of
/// the log.
pub(crate) fn commit_counted<L: SharedLedger>(
    alloc: Global,
    world: &mut World,
    added: &mut u64,
    books: &mut Books<L>,
    me: &mut Handle<L>,
    moment: u64,
    prepared: &Prepared,
) -> Result<Committed, CommitFault>
    requires seen { me.old.front ≤ entry_count world.old }
    requires few { added.old ≤ entry_count world.old }
    ensures step { CommitStep world.old moment prepared.now (given_back prepared.now result) world.new }
    ensures added { entry_count world.new + added.old ≡ entry_count world.old + added.new }
    ensures total { books.new.added.total + added.old ≡ books.old.added.total + added.new }
    ensures taken { (books.new.taken.total ≡ books.old.taken.total) × (books.new.cut ≡ books.old.cut) }
    ensures front { me.new.front ≡ entry_count world.new }
    ensures counts { CountsBack me.old result commit_place me.new }
{
    let result = world.commit_kept(alloc, moment, prepared);
    let len = log_len(world);
    match &result {
        Ok(Committed::Done(_)) => {
            books.added.add(&mut me.rights.added, 1);
            *added += 1;
        }
        Ok(Committed::Refused { .. }) => {}
        Err(_) => books.refused.add(&mut me.rights.refused, 1),
    }
    me.front = len;
    result
}

/// The same of a piece, which always has an entry if it is accepted.
pub(crate) fn piece_counted<L: SharedLedger>(
    alloc: Global,
    world: &mut World,
    added: &mut u64,
    books: &mut Books<L>,
    me: &mut Handle<L>,
    moment: u64,
    prepared: PreparedPiece,
) -> Result<PieceDone, (PieceFault, PreparedPiece)>
    requires seen { me.old.front ≤ entry_count world.old }
    requires few { added.old ≤ entry_count world.old }
    ensures step { PieceStep world.old moment prepared result world.new }
    ensures added { entry_count world.new + added.old ≡ entry_count world.old + added.new }
    ensures total { books.new.added.total + added.old ≡ books.old.added.total + added.new }
    ensures taken { (books.new.taken.total ≡ books.old.taken.total) × (books.new.cut ≡ books.old.cut) }
    ensures front { me.new.front ≡ entry_count world.new }
    ensures counts { CountsBack me.old result piece_place me.new }
{
    let result = world.commit_piece(alloc, moment, prepared);
    let len = log_len(world);
    match &result {
        Ok(_) => {
            books.added.add(&mut me.rights.added, 1);
            *added += 1;
        }
        Err(_) => books.refused.add(&mut me.rights.refused, 1),
    }
    me.front = len;
    result
}
