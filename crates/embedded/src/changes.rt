//! Schema changes of a world, step by step and piece by piece.
ghost use Rattle.std.specs.Prelude.{◌≡◌};
ghost use Rattle.handles.specs.Schemas.{SchemaTo, LeaseSchemaTo};
ghost use Rattle.operator_calls.specs.Changes.{Publishes, Begins};
ghost use Rattle.operator_calls.specs.Plans.{Plans};
ghost use Rattle.operator_calls.specs.Pieces.{ReadsPiece, PreparesPiece, CommitsPiece};
ghost use Rattle.operator_calls.specs.Advances.{Advances};
ghost use Rattle.operator_calls.specs.Dues.{Dues};
ghost use Rattle.operator_calls.specs.Standing.{Progresses, ShowsStatus};

use handles::{Handle, Outcome};
use operator_calls::{AdvanceOutcome, ChangeOutcome, PieceOutcome, ProgressOutcome};
use std::alloc::Global;

/// `operator_calls::advance`.
#[unsafe(no_mangle)]
pub extern "C" fn cagzhomul_advance(
    alloc: Global,
    world: &mut Handle,
    moment: u64,
    pieces: u32,
    limit: u32,
) -> AdvanceOutcome
    ensures { Advances world.old.place.value moment pieces limit result world.new.place.value }
{
    operator_calls::advance(alloc, world, moment, pieces, limit)
}

/// `operator_calls::due_entry`.
#[unsafe(no_mangle)]
pub extern "C" fn cagzhomul_due_entry(
    alloc: Global,
    world: &mut Handle,
    moment: u64,
    pieces: u32,
    limit: u32,
    bytes: &mut Handle,
) -> AdvanceOutcome
    ensures dues { Dues world.old.place.value moment pieces limit bytes.old.place.value result bytes.new.place.value }
    ensures same { world.new.place.value ≡ world.old.place.value }
{
    operator_calls::due_entry(alloc, world, moment, pieces, limit, bytes)
}

/// `Handle::schema`.
#[unsafe(no_mangle)]
pub extern "C" fn cagzhomul_schema(alloc: Global, world: &mut Handle, bytes: &mut Handle) -> i32
    ensures schema { SchemaTo world.old.place.value bytes.old.place.value result bytes.new.place.value }
    ensures same { world.new.place.value ≡ world.old.place.value }
{
    world.schema(alloc, bytes)
}

/// `Handle::lease_schema`.
#[unsafe(no_mangle)]
pub extern "C" fn cagzhomul_lease_schema(
    alloc: Global,
    lease: &mut Handle,
    bytes: &mut Handle,
) -> i32
    ensures schema { LeaseSchemaTo lease.old.place.value bytes.old.place.value result bytes.new.place.value }
    ensures same { lease.new.place.value ≡ lease.old.place.value }
{
    lease.lease_schema(alloc, bytes)
}

/// `operator_calls::publish`.
#[unsafe(no_mangle)]
pub extern "C" fn cagzhomul_publish(
    alloc: Global,
    world: &mut Handle,
    moment: u64,
    step: &[u8],
) -> ChangeOutcome
    ensures { Publishes world.old.place.value moment step.now result world.new.place.value }
{
    operator_calls::publish(alloc, world, moment, step)
}

/// `operator_calls::begin_reorg`.
#[unsafe(no_mangle)]
pub extern "C" fn cagzhomul_begin_reorg(
    alloc: Global,
    world: &mut Handle,
    moment: u64,
    element: u32,
    pieces: u32,
) -> ChangeOutcome
    ensures { Begins world.old.place.value moment element pieces result world.new.place.value }
{
    operator_calls::begin_reorg(alloc, world, moment, element, pieces)
}

/// `operator_calls::plan`.
#[unsafe(no_mangle)]
pub extern "C" fn cagzhomul_plan(
    alloc: Global,
    world: &mut Handle,
    changes: &[u8],
    out: &mut [u8],
) -> Outcome
    ensures plans { Plans world.old.place.value changes.now out.old result out.new }
    ensures same { world.new.place.value ≡ world.old.place.value }
{
    operator_calls::plan(alloc, world, changes, out)
}

/// `operator_calls::read_piece`.
#[unsafe(no_mangle)]
pub extern "C" fn cagzhomul_read_piece(
    alloc: Global,
    world: &mut Handle,
    element: u32,
    piece: u32,
    limit: u32,
    work: &mut Handle,
) -> i32
    ensures reads { ReadsPiece world.old.place.value element piece limit work.old.place.value result work.new.place.value }
    ensures same { world.new.place.value ≡ world.old.place.value }
{
    operator_calls::read_piece(alloc, world, element, piece, limit, work)
}

/// `operator_calls::prepare_piece`.
#[unsafe(no_mangle)]
pub extern "C" fn cagzhomul_prepare_piece(
    alloc: Global,
    work: &mut Handle,
    prepared: &mut Handle,
) -> i32
    ensures { PreparesPiece work.old.place.value prepared.old.place.value result work.new.place.value prepared.new.place.value }
{
    operator_calls::prepare_piece(alloc, work, prepared)
}

/// `operator_calls::commit_piece`.
#[unsafe(no_mangle)]
pub extern "C" fn cagzhomul_commit_piece(
    alloc: Global,
    world: &mut Handle,
    moment: u64,
    prepared: &mut Handle,
) -> PieceOutcome
    ensures { CommitsPiece world.old.place.value moment prepared.old.place.value result world.new.place.value prepared.new.place.value }
{
    operator_calls::commit_piece(alloc, world, moment, prepared)
}

/// `operator_calls::progress`.
#[unsafe(no_mangle)]
pub extern "C" fn cagzhomul_progress(
    alloc: Global,
    world: &mut Handle,
    element: u32,
) -> ProgressOutcome
    ensures progresses { Progresses world.old.place.value element result }
    ensures same { world.new.place.value ≡ world.old.place.value }
{
    operator_calls::progress(alloc, world, element)
}

/// `operator_calls::status`.
#[unsafe(no_mangle)]
pub extern "C" fn cagzhomul_status(alloc: Global, world: &mut Handle, out: &mut [u8]) -> Outcome
    ensures shows { ShowsStatus world.old.place.value out.old result out.new }
    ensures same { world.new.place.value ≡ world.old.place.value }
{
    operator_calls::status(alloc, world, out)
}
