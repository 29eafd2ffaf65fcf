//! Changes of chunks by pages that are made anew before the first change.
ghost use Rattle.std.specs.Prelude.{◌≡◌, ◌+◌, ◌≤◌, ◌<◌, [], true, false, IfOk, IfErr, length};
ghost use Rattle.std.specs.Vec.{vec_len};
ghost use Rattle.byte_map.specs.Sorted.{IsSorted, changed_all};
ghost use Rattle.page_map.specs.Pages.{joined, AllFull};

use crate::chunk::{CHUNK_LIMIT, Chunk};
use crate::chunks;
use crate::rest::count_pages;
use crate::rewrite::Plan;
use byte_map::Bytes;
use std::alloc::{AllocError, Global};
use std::sync::Arc;

/// What writes have made of chunks.
#[derive(Drop)]
pub(crate) struct Outcome {
    /// How many pairs there are.
    pub(crate) len: usize,
    /// Whether a chunk may have no pair any more.
    pub(crate) emptied: bool,
    /// The place of a chunk that may have too many pages, if any has. It only affects speed.
    pub(crate) grown: usize,
}

/// Makes all of `writes`, and reports what became of `len` pairs. The pages that they need, and
/// room for them, are made before the first change: refused only when out of memory, and the chunks
/// are then unchanged.
pub(crate) fn write_planned(
    alloc: Global,
    chunks: &mut [Chunk],
    len: usize,
    writes: &[(Bytes, Option<Bytes>)],
) -> Result<Outcome, AllocError>
    requires sorted { IsSorted (joined chunks.old) }
    requires full { AllFull chunks.old }
    requires writes { IsSorted writes.now }
    requires counted { length (joined chunks.old) ≤ len }
    ensures written { IfOk result (λ o. joined chunks.new ≡ changed_all (joined chunks.old) writes.now) }
    ensures counted { IfOk result (λ o. o.len + length (joined chunks.old) ≡ len + length (joined chunks.new)) }
    ensures full { IfOk result (λ o. o.emptied ≡ false → AllFull chunks.new) }
    ensures kept { IfErr result (λ e. chunks.new ≡ chunks.old) }
    ensures len { length chunks.new ≡ length chunks.old }
{
    let [(key, _), ..] = writes else {
        return Ok(Outcome {
            len,
            emptied: false,
            grown: usize::MAX,
        });
    };
    let at = chunks::place_of(chunks, 0, key.as_slice(), usize::MAX);
    if at >= chunks.len() {
        return Err(AllocError);
    }
    let count = chunks::count_before(writes, chunks, at + 1);
    let (here, later) = writes.split_at(count);
    let (prefix, behind) = chunks.split_at_mut(at + 1);
    let chunk = &mut prefix[at];
    chunk.part_from_others(alloc)?;
    let Some(pages) = Arc::get_mut(&mut chunk.shared) else {
        return Err(AllocError);
    };
    let plan = Plan::new(alloc, pages.as_slice(), len, here)?;
    pages.reserve(plan.room)?;
    let spare = plan.spare(alloc, pages)?;
    let total = plan.total();
    let rest = write_planned(alloc, behind, total, later)?;
    plan.place(pages, spare);
    let size = pages.len();
    let grown = if size > CHUNK_LIMIT {
        at
    } else {
        rest.grown.saturating_add(at).saturating_add(1)
    };
    if size == 0 {
        chunk.empty_count = 0;
        return Ok(Outcome {
            len: rest.len,
            emptied: true,
            grown,
        });
    }
    let first = pages.as_slice();
    chunk.prefix = *first[0].first_prefix();
    chunk.empty_count = count_pages(first);
    Ok(Outcome {
        len: rest.len,
        emptied: rest.emptied,
        grown,
    })
}

/// The chunks that writes make if there is no pair yet, and how many pairs they have. Refused only
/// when out of memory.
pub(crate) fn first_chunks(
    alloc: Global,
    writes: &[(Bytes, Option<Bytes>)],
) -> Result<(Vec<Chunk>, usize), AllocError>
    requires { IsSorted writes.now }
    ensures written { IfOk result (λ r. joined r.0.items ≡ changed_all [] writes.now) }
    ensures counted { IfOk result (λ r. r.1 ≡ length (joined r.0.items)) }
    ensures full { IfOk result (λ r. AllFull r.0.items) }
{
    let mut pages = Vec::new(alloc);
    let plan = Plan::new(alloc, &[], 0, writes)?;
    pages.reserve(plan.room)?;
    let spare = plan.spare(alloc, &pages)?;
    let len = plan.total();
    plan.place(&mut pages, spare);
    if pages.is_empty() {
        return Ok((Vec::new(alloc), len));
    }
    let mut chunks = Vec::new(alloc);
    chunks.push(Chunk::new(alloc, pages)?)?;
    cut_up(alloc, &mut chunks, 0);
    Ok((chunks, len))
}

/// Takes the chunks away that have no pair.
pub(crate) fn drop_empty(chunks: &mut Vec<Chunk>)
    ensures kept { joined chunks.new.items ≡ joined chunks.old.items }
    ensures full { AllFull chunks.new.items }
{
    let mut at = 0;
    while at < chunks.len() {
        if chunks[at].is_empty() {
            chunks.remove(at);
        } else {
            at += 1;
        }
    }
}

/// Cuts the chunk at a place if it has too many pages, as far as there is memory for it.
pub(crate) fn cut_up(alloc: Global, chunks: &mut Vec<Chunk>, at: usize)
    requires in_range { at < vec_len chunks.old }
    requires full { AllFull chunks.old.items }
    ensures kept { joined chunks.new.items ≡ joined chunks.old.items }
    ensures full { AllFull chunks.new.items }
{
    let cuts = chunks[at].pages().len() / (CHUNK_LIMIT / 2);
    for _ in 0..cuts {
        if !cut_off(alloc, chunks, at) {
            return;
        }
    }
}

/// Cuts pages off the end of the chunk at a place, as a chunk of their own, and reports whether it
/// did.
fn cut_off(alloc: Global, chunks: &mut Vec<Chunk>, at: usize) -> bool
    requires in_range { at < vec_len chunks.old }
    requires full { AllFull chunks.old.items }
    ensures kept { joined chunks.new.items ≡ joined chunks.old.items }
    ensures full { AllFull chunks.new.items }
    ensures more { vec_len chunks.old ≤ vec_len chunks.new }
{
    if chunks.reserve(1).is_err() {
        return false;
    }
    let chunk = &mut chunks[at];
    let Some(tail) = chunk.cut_off(alloc) else {
        return false;
    };
    match chunks.insert(at + 1, tail) {
        Ok(()) => true,
        Err(_) => unreachable!(),
    }
}
