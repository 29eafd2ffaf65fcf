//! Drafts as bytes, from points and pairs that others own: none is copied but into the code.
ghost use Rattle.std.specs.Prelude.{◌≡◌, ◌++◌, IfOk, OnOk};
ghost use Rattle.entry_code.specs.Code.{list_code};
ghost use Rattle.entry_code.specs.Records.{point_list_code, range_code, range_of, ranges_of, draft_parts_code};

use crate::encoded::Encoded;
use crate::lists::{push_each, push_items};
use byte_map::Bytes;
use row_map::KeyRange;
use std::alloc::{AllocError, Global};

/// A key with its value or none.
type Point = (Bytes, Option<Bytes>);

/// Adds the code of the list that two slices are, one after the other.
#[tactic(auto, unfolding(crate::specs::Code::list_code))]
fn push_joined(out: &mut Vec<u8>, first: &[Point], rest: &[Point]) -> Result<(), AllocError>
    ensures { OnOk result (out.new.items ≡ out.old.items ++ point_list_code (first.now ++ rest.now)) }
{
    ((first.len() + rest.len()) as u64).push(out)?;
    push_each(out, first)?;
    push_each(out, rest)
}

/// Adds the code of a range with its pairs.
fn push_range(out: &mut Vec<u8>, range: &KeyRange) -> Result<(), AllocError>
    ensures { OnOk result (out.new.items ≡ out.old.items ++ range_code (range_of range.now)) }
{
    range.low.push(out)?;
    range.high.push(out)?;
    push_items(out, range.pairs.entries())
}

/// Adds the code of the list of the range, if there is one.
#[tactic(auto, unfolding(crate::specs::Code::list_code))]
fn push_ranges(out: &mut Vec<u8>, range: &Option<KeyRange>) -> Result<(), AllocError>
    ensures { OnOk result (out.new.items ≡ out.old.items ++ list_code range_code (ranges_of range.now)) }
{
    match range {
        None => 0u64.push(out),
        Some(range) => {
            1u64.push(out)?;
            push_range(out, range)
        }
    }
}

// About how many bytes keys and values take in a code: how far to trust it shows in the speed alone.
pub(crate) fn room_of(points: &[Point]) -> usize {
    let mut total = 0usize;
    for (key, value) in points {
        let value = match value {
            Some(bytes) => bytes.len(),
            None => 0,
        };
        total = total
            .saturating_add(key.len())
            .saturating_add(value)
            .saturating_add(17);
    }
    total
}

// The same of two slices.
fn room_of_both(points: (&[Point], &[Point])) -> usize {
    room_of(points.0).saturating_add(room_of(points.1))
}

/// The code of the parts of a draft, as `draft_parts_bytes` gives it, from points in two slices, which
/// are one list, one after the other. Nothing is copied but into the code.
///
/// - `compare`: the points that are compared.
/// - `range`: the range that is compared, with its pairs, if there is one.
/// - `write`: the points that are written.
///
/// Refused only when out of memory. It takes time and memory in proportion to the code's length.
pub fn borrowed_draft_bytes(
    alloc: Global,
    compare: (&[Point], &[Point]),
    range: &Option<KeyRange>,
    write: (&[Point], &[Point]),
) -> Result<Vec<u8>, AllocError>
    ensures { IfOk result (λ bytes. bytes.items ≡ draft_parts_code (record { compare = compare.entry.0.now ++ compare.entry.1.now; ranges = ranges_of range.now; write = write.entry.0.now ++ write.entry.1.now })) }
{
    let room = room_of_both(compare).saturating_add(room_of_both(write));
    let mut out = Vec::with_capacity(alloc, room.saturating_add(25))?;
    out.push(1)?;
    push_joined(&mut out, compare.0, compare.1)?;
    push_ranges(&mut out, range)?;
    push_joined(&mut out, write.0, write.1)?;
    Ok(out)
}
