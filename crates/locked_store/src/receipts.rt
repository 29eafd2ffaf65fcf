//! Receipts against the log of a world. No lock is taken: the world is one that is handed in, as
//! `Shared::close` gives it back.
ghost use Rattle.std.specs.Prelude.{◌≡◌, ◌<◌, ℕ, IfOk, IfErr, OnOk, vec_len, slice_index_or, true, false};
ghost use Rattle.locked_store.specs.Faults.{Faulty, HasPlace};
ghost use Rattle.rollout.specs.State.{entries_before, entries_kept};
ghost use Rattle.locked_store.specs.Receipts.{Agree, ReceiptsAreTheLog};

use crate::fault::ReceiptFault;
use rollout::world::{Entry, Receipt, World};
use std::alloc::{AllocError, Global};

// A mark for each of so many places, none of them set.
fn fresh(alloc: Global, count: usize) -> Result<Vec<bool>, AllocError>
    ensures { IfOk result (λ v. (vec_len v ≡ count) × ((k : ℕ) → k < count → slice_index_or v.items k true ≡ false)) }
{
    let mut seen = Vec::with_capacity(alloc, count)?;
    for _i in 0..count {
        seen.push_reserved(false);
    }
    Ok(seen)
}

// What is wrong with a receipt of this place and entry, whatever other receipts there are.
fn place_fault(start: u64, log: &[Entry], receipt: &Receipt) -> Option<ReceiptFault>
    ensures { HasPlace start log.now receipt.now result }
{
    let place = receipt.place;
    if place == 0 {
        return Some(ReceiptFault::NoPlace { place });
    }
    if place <= start {
        return Some(ReceiptFault::CutOff { place });
    }
    if place - start > log.len() as u64 {
        return Some(ReceiptFault::NoPlace { place });
    }
    if !log[(place - (start + 1)) as usize].is_same(&receipt.entry) {
        return Some(ReceiptFault::OtherEntry { place });
    }
    None
}

// What is reported if there is no memory for marks: the first receipt's fault, and out of memory
// only if it has none.
fn first_unmarked(start: u64, log: &[Entry], receipts: &[Receipt]) -> ReceiptFault
    ensures { Faulty start log.now receipts.now result }
{
    let Some(receipt) = receipts.first() else {
        return ReceiptFault::Memory;
    };
    match place_fault(start, log, receipt) {
        Some(fault) => fault,
        None => ReceiptFault::Memory,
    }
}

// The same as `reconcile`, of the entries after the first `start`.
fn check_receipts(
    alloc: Global,
    start: u64,
    log: &[Entry],
    receipts: &[Receipt],
) -> Result<(), ReceiptFault>
    ensures ok { OnOk result (Agree start log.now receipts.now) }
    ensures faults { IfErr result (λ e. Faulty start log.now receipts.now e) }
{
    let Ok(mut seen) = fresh(alloc, log.len()) else {
        return Err(first_unmarked(start, log, receipts));
    };
    for receipt in receipts {
        if let Some(fault) = place_fault(start, log, receipt) {
            return Err(fault);
        }
        let place = receipt.place;
        let at = (place - (start + 1)) as usize;
        if seen[at] {
            return Err(ReceiptFault::Twice { place });
        }
        seen[at] = true;
    }
    Ok(())
}

/// Tests receipts, in order, against the entries that the world has in memory: each receipt's entry
/// is at its place, and no place comes twice.
///
/// The first faulty receipt is refused, in this order: `NoPlace` if there was no such place yet;
/// `OtherEntry` if another entry is at it; `Twice` if an earlier receipt has the place; `CutOff` if
/// the place is one of those that are no longer in memory, which never comes if nothing was cut and
/// the world did not open at a checkpoint; `Memory`, once the first receipt has no fault.
pub fn reconcile(alloc: Global, world: &World, receipts: &[Receipt]) -> Result<(), ReceiptFault>
    ensures ok { OnOk result (Agree (entries_before world.now) (entries_kept world.now) receipts.now) }
    ensures faults { IfErr result (λ e. Faulty (entries_before world.now) (entries_kept world.now) receipts.now e) }
{
    check_receipts(alloc, world.log_start(), world.log(), receipts)
}

/// Tells what receipts are that agree with entries of a log, are as many as all entries after the
/// first so many, and all come after those: each entry from there on has its receipt, and no other.
pub fn lemma_receipts_are_the_log()
    ensures { ReceiptsAreTheLog }
{}
