//! Entries of a world's log, as bytes.
ghost use Rattle.std.specs.Prelude.{◌≡◌, option_copied};
ghost use Rattle.handles.specs.Entries.{entry_at, RepeatsBytes, RepeatsEntry, RepeatsWorld, ShowsCode, ShowsPlace};
ghost use Rattle.handles.specs.Replies.{repeat_status};

use crate::outcome::{Outcome, lay};
use entry_code::{CodeFault, entry_bytes, entry_of};
use replica::{Repeat, RepeatFault};
use std::alloc::Global;
use typed_calls::BoundedWorld;
use typed_calls::status::{BAD_ENTRY, NO_ENTRY, NOT_NEXT, OK, OUT_OF_MEMORY};
use typed_calls::world::{Entry, Receipt, World};

// The entry of this place, of which the first is 1.
fn entry_at(log: &[Entry], place: usize) -> Option<&Entry>
    ensures { option_copied result ≡ entry_at log.now place }
{
    log.get(place.checked_sub(1)?)
}

// Writes as much of the code of the entry of this place as fits.
fn show_entry(alloc: Global, log: &[Entry], place: usize, out: &mut [u8]) -> Outcome
    ensures { ShowsCode (entry_at log.now place) out.old result out.new }
{
    let Some(entry) = entry_at(log, place) else {
        return Outcome::refusal(NO_ENTRY);
    };
    let Ok(code) = entry_bytes(alloc, entry) else {
        return Outcome::refusal(OUT_OF_MEMORY);
    };
    lay(out, code.as_slice());
    Outcome {
        status: OK,
        length: code.len(),
    }
}

/// Writes as much of the code of the world's entry of this place as fits. `NO_ENTRY` also answers a
/// place whose entry is no longer in memory.
pub(crate) fn show_place(alloc: Global, world: &World, place: usize, out: &mut [u8]) -> Outcome
    ensures { ShowsPlace world.now place out.old result out.new }
{
    let place = place.saturating_sub(world.log_start() as usize);
    show_entry(alloc, world.log(), place, out)
}

// The status of an entry that was to be repeated.
fn repeat_status(repeated: &Result<Receipt, RepeatFault>) -> i32
    ensures { result ≡ repeat_status repeated.now }
{
    match repeated {
        Ok(_) => OK,
        Err(RepeatFault::NotNext) => NOT_NEXT,
        Err(RepeatFault::Memory) => OUT_OF_MEMORY,
    }
}

// Repeats the entry in the world.
fn repeat_in(alloc: Global, world: &mut World, entry: &Entry) -> i32
    ensures { RepeatsWorld world.old entry.now result world.new }
{
    repeat_status(&world.repeat(alloc, entry))
}

// The same of an entry that is not too far.
fn repeat_entry(alloc: Global, bounded: &mut BoundedWorld, entry: &Entry) -> i32
    ensures { RepeatsEntry bounded.old entry.now result bounded.new }
{
    if bounded.is_too_far(entry.moment) {
        return NOT_NEXT;
    }
    repeat_in(alloc, &mut bounded.world, entry)
}

/// Repeats the entry whose code these bytes are.
pub(crate) fn repeat_bytes(alloc: Global, bounded: &mut BoundedWorld, bytes: &[u8]) -> i32
    ensures { RepeatsBytes bounded.old bytes.now result bounded.new }
{
    match entry_of(alloc, bytes) {
        Ok(entry) => repeat_entry(alloc, bounded, &entry),
        Err(CodeFault::Memory) => OUT_OF_MEMORY,
        Err(_) => BAD_ENTRY,
    }
}
