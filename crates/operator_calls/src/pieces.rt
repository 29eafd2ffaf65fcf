//! Pieces of begun reorganisations, in handles of their own.
ghost use Rattle.std.specs.Prelude.{◌≡◌, false, None};
ghost use Rattle.operator_calls.specs.Pieces.{pieced, ReadsInto, ReadsPiece, PreparesEngine, PreparesPiece, CommitsEngine, CommitsTo, CommitsPiece};

use handles::typed_calls::BoundedWorld;
use handles::typed_calls::status::{ALREADY_OPEN, CLOSED, OK};
use handles::world::{PieceDone, World};
use handles::{Engine, Handle, filled, taken_out, typed_calls};
use std::alloc::Global;

/// What the commit of a piece came to.
#[repr(C)]
#[derive(Clone, Copy, Drop)]
pub struct PieceOutcome {
    /// The status.
    pub status: i32,
    /// At `OK` whether the piece has come to its end; else false.
    pub ended: bool,
    /// At `OK` the place of its entry in the log; else 0.
    pub place: u64,
}

impl PieceOutcome {
    /// A status alone.
    pub(crate) fn of(status: i32) -> PieceOutcome
        ensures { result ≡ record { status = status; ended = false; place = 0 } }
    {
        PieceOutcome {
            status,
            ended: false,
            place: 0,
        }
    }

    // What a piece that was committed is reported as.
    fn pieced(done: &PieceDone) -> PieceOutcome
        ensures { result ≡ pieced done.now }
    {
        PieceOutcome {
            status: OK,
            ended: done.ended,
            place: done.receipt.place,
        }
    }
}

// The engine after it was prepared, if it is a piece that was read; else it comes back.
fn prepare_engine(alloc: Global, engine: Engine) -> Result<Engine, (i32, Engine)>
    ensures { PreparesEngine engine result }
{
    match engine {
        Engine::Piece(view) => match typed_calls::prepare_piece(alloc, view) {
            Ok(prepared) => Ok(Engine::PreparedPiece(prepared)),
            Err((status, view)) => Err((status, Engine::Piece(view))),
        },
        other => Err((CLOSED, other)),
    }
}

// What is left of an engine that was committed, if it is a prepared piece.
fn commit_engine(
    alloc: Global,
    bounded: &mut BoundedWorld,
    moment: u64,
    engine: Engine,
) -> (PieceOutcome, Option<Engine>)
    ensures { CommitsEngine bounded.old moment engine result.0 bounded.new result.1 }
{
    match engine {
        Engine::PreparedPiece(prepared) => {
            match typed_calls::commit_piece(alloc, bounded, moment, prepared) {
                Ok(done) => (PieceOutcome::pieced(&done), None),
                Err(refusal) => {
                    let left = Engine::PreparedPiece(refusal.1);
                    (PieceOutcome::of(refusal.0), Some(left))
                }
            }
        }
        other => (PieceOutcome::of(CLOSED), Some(other)),
    }
}

// Commits the piece of a handle to the world.
fn commit_to(
    alloc: Global,
    bounded: &mut BoundedWorld,
    moment: u64,
    prepared: &mut Handle,
) -> PieceOutcome
    ensures { CommitsTo bounded.old moment prepared.old.place.value result bounded.new prepared.new.place.value }
{
    let Some(engine) = prepared.take(alloc) else {
        return PieceOutcome::of(CLOSED);
    };
    let (held, room) = taken_out(alloc, engine);
    let (outcome, left) = commit_engine(alloc, bounded, moment, held);
    if let Some(left) = left {
        prepared.put(filled(room, left));
    }
    outcome
}

// Fills a closed handle with what is read of a piece, of the world.
fn keep_piece(
    alloc: Global,
    world: &World,
    element: u32,
    piece: u32,
    limit: u32,
    work: &mut Handle,
) -> i32
    requires { work.old.place.value ≡ None }
    ensures { ReadsInto world.now element piece limit result work.new.place.value }
{
    match typed_calls::read_piece(alloc, world, element, piece, limit) {
        Ok(view) => work.fill(alloc, Engine::Piece(view)),
        Err(status) => status,
    }
}

/// Reads the next `limit` items, 1 to 1,000, of a piece of the begun reorganisation of an element,
/// in a world, into the closed handle `work`; pieces count from 0. `OK`; else `ALREADY_OPEN` (of
/// `work`), `CLOSED`, `NOT_WANTED`, `BAD_PIECE`, `SPENT`, `BAD_COUNT` or `OUT_OF_MEMORY`. The world
/// stays, and a refusal changes nothing.
pub fn read_piece(
    alloc: Global,
    world: &mut Handle,
    element: u32,
    piece: u32,
    limit: u32,
    work: &mut Handle,
) -> i32
    ensures reads { ReadsPiece world.old.place.value element piece limit work.old.place.value result work.new.place.value }
    ensures same { world.new.place.value ≡ world.old.place.value }
{
    if work.is_open() {
        return ALREADY_OPEN;
    }
    let Some(engine) = world.take(alloc) else {
        return CLOSED;
    };
    let Engine::World(bounded) = &*engine else {
        world.put(engine);
        return CLOSED;
    };
    let status = keep_piece(alloc, &bounded.world, element, piece, limit, work);
    world.put(engine);
    status
}

/// Prepares a piece that was read, into the closed handle `prepared`: what it writes. It takes no
/// world, so no lock of one. `OK`, and `work` is closed; else `ALREADY_OPEN` (of `prepared`),
/// `CLOSED` (of `work`) or `OUT_OF_MEMORY`. A refusal changes nothing.
pub fn prepare_piece(alloc: Global, work: &mut Handle, prepared: &mut Handle) -> i32
    ensures { PreparesPiece work.old.place.value prepared.old.place.value result work.new.place.value prepared.new.place.value }
{
    if prepared.is_open() {
        return ALREADY_OPEN;
    }
    let Some(engine) = work.take(alloc) else {
        return CLOSED;
    };
    let (held, room) = taken_out(alloc, engine);
    match prepare_engine(alloc, held) {
        Ok(made) => {
            prepared.put(filled(room, made));
            OK
        }
        Err((status, left)) => {
            work.put(filled(room, left));
            status
        }
    }
}

/// Commits a prepared piece to a world: its pairs are written, and its cursor comes on. `OK`, and
/// `prepared` is closed; else `CLOSED` (of `world`, then of `prepared`), `TOO_FAR`,
/// `MOMENT_TOO_LARGE`, `NOT_WANTED`, `WRONG_ELEMENT`, `MOVED`, `CONFLICT`, or `OUT_OF_MEMORY`, which
/// may come in place of the two before it. A refusal changes nothing.
pub fn commit_piece(
    alloc: Global,
    world: &mut Handle,
    moment: u64,
    prepared: &mut Handle,
) -> PieceOutcome
    ensures { CommitsPiece world.old.place.value moment prepared.old.place.value result world.new.place.value prepared.new.place.value }
{
    let Some(mut engine) = world.take(alloc) else {
        return PieceOutcome::of(CLOSED);
    };
    let Engine::World(bounded) = &mut *engine else {
        world.put(engine);
        return PieceOutcome::of(CLOSED);
    };
    let outcome = commit_to(alloc, bounded, moment, prepared);
    world.put(engine);
    outcome
}
