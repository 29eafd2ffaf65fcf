//! Where pairs lie in one string of bytes, and how they are laid there.
ghost use Rattle.std.specs.Prelude.{◌≡◌, ◌++◌, ◌+◌, ◌≤◌, ◌<◌, ◌^◌, IfOk, IfErr, IsOk, OnOk, length};
ghost use Rattle.std.specs.Vec.{vec_len, vec_capacity};
ghost use Rattle.byte_map.specs.Sorted.{IsAt, IsGap, changed};
ghost use Rattle.page_map.specs.inner.FlatPairs.{marked, encoded, IsWithin, AllWithin, size};

use byte_map::Bytes;
use std::alloc::AllocError;

/// Where a pair lies among bytes: the key from `start` to `middle`, its value from there to `end`.
/// Four bytes each, since the slots of a page are copied with it.
#[derive(Clone, Copy)]
pub(crate) struct Slot {
    pub(crate) start: u32,
    pub(crate) middle: u32,
    pub(crate) end: u32,
}

/// The pair that a slot marks.
#[inline(always)]
pub(crate) fn read<'a>(bytes: &'a [u8], slot: Slot) -> (&'a [u8], &'a [u8])
    requires { IsWithin (length bytes.now) slot }
    ensures { (result.0.now, result.1.now) ≡ marked bytes.now slot }
{
    (
        &bytes[slot.start as usize..slot.middle as usize],
        &bytes[slot.middle as usize..slot.end as usize],
    )
}

/// Makes one change at the place that was found for the key.
pub(crate) fn edit(
    bytes: &mut Vec<u8>,
    slots: &mut Vec<Slot>,
    place: Result<usize, usize>,
    key: &[u8],
    change: &Option<Bytes>,
) -> Result<(), AllocError>
    requires within { AllWithin (length bytes.old.items) slots.old.items }
    requires found { IfOk place (λ at. IsAt (encoded bytes.old.items slots.old.items) key.now at) }
    requires absent { IfErr place (λ at. IsGap (encoded bytes.old.items slots.old.items) key.now at) }
    ensures written { OnOk result (encoded bytes.new.items slots.new.items ≡ changed (encoded bytes.old.items slots.old.items) key.now change.now) }
    ensures within { AllWithin (length bytes.new.items) slots.new.items }
    ensures succeeds { vec_len bytes.old + size key.now change.now ≤ vec_capacity bytes.old → vec_len bytes.old + size key.now change.now < 2 ^ 32 → vec_len slots.old < vec_capacity slots.old → IsOk result }
    ensures bytes_len { OnOk result (vec_len bytes.new ≤ vec_len bytes.old + size key.now change.now) }
    ensures bytes_capacity { vec_capacity bytes.old ≤ vec_capacity bytes.new }
    ensures slots_len { OnOk result (vec_len slots.new ≤ vec_len slots.old + 1) }
    ensures slots_capacity { vec_capacity slots.old ≤ vec_capacity slots.new }
{
    match (place, change) {
        (Ok(at), Some(value)) => {
            slots[at] = lay(bytes, key, value.as_slice())?;
            Ok(())
        }
        (Ok(at), None) => {
            slots.remove(at);
            Ok(())
        }
        (Err(at), Some(value)) => {
            let slot = lay(bytes, key, value.as_slice())?;
            Ok(slots.insert(at, slot)?)
        }
        (Err(_), None) => Ok(()),
    }
}

/// Lays a pair after the other bytes, and returns where.
pub(crate) fn lay(bytes: &mut Vec<u8>, key: &[u8], value: &[u8]) -> Result<Slot, AllocError>
    ensures kept { OnOk result (bytes.new.items ≡ bytes.old.items ++ (key.now ++ value.now)) }
    ensures marked { IfOk result (λ slot. marked bytes.new.items slot ≡ (key.now, value.now)) }
    ensures within { IfOk result (λ slot. IsWithin (length bytes.new.items) slot) }
    ensures grown { length bytes.old.items ≤ length bytes.new.items }
    ensures succeeds { vec_len bytes.old + (length key.now + length value.now) ≤ vec_capacity bytes.old → vec_len bytes.old + (length key.now + length value.now) < 2 ^ 32 → IsOk result }
    ensures len { OnOk result (vec_len bytes.new ≡ vec_len bytes.old + (length key.now + length value.now)) }
    ensures capacity { vec_capacity bytes.old ≤ vec_capacity bytes.new }
{
    let start = bytes.len();
    bytes.extend_from_slice(key)?;
    let middle = bytes.len();
    bytes.extend_from_slice(value)?;
    let slot = slot_of(start, middle, bytes.len())?;
    Ok(slot)
}

// The slot of a pair. No page has as many bytes as it could not count: those are answered as out of
// memory.
fn slot_of(start: usize, middle: usize, end: usize) -> Result<Slot, AllocError>
    requires { (start ≤ middle) × (middle ≤ end) }
    ensures slot { IfOk result (λ slot. slot ≡ record { start = start; middle = middle; end = end }) }
    ensures succeeds { end < 2 ^ 32 → IsOk result }
{
    if end > u32::MAX as usize {
        return Err(AllocError);
    }
    Ok(Slot {
        start: start as u32,
        middle: middle as u32,
        end: end as u32,
    })
}

/// About how many bytes the slots mark. It only affects speed.
pub(crate) fn used_bytes(slots: &[Slot]) -> usize {
    let mut total = 0usize;
    for slot in slots {
        total = total.saturating_add(slot.end.saturating_sub(slot.start) as usize);
    }
    total
}
