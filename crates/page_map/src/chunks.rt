//! Searches over chunks.
ghost use Rattle.std.specs.Prelude.{◌≡◌, ◌+◌, ◌≤◌, ◌<◌, ◌++◌, List, ℕ, T, Option, length, take, drop};
ghost use Rattle.std.specs.FinMap.Entries.{below_all};
ghost use Rattle.byte_map.specs.Order.{bytes_cmp};
ghost use Rattle.byte_map.specs.Sorted.{IsSorted, all_below, changed_all};
ghost use Rattle.page_map.specs.inner.Prefix.{IsPrefix};
ghost use Rattle.page_map.specs.Pages.{joined, AllFull, IsCountUpTo, Stands};

use crate::chunk::Chunk;
use crate::page::{Prefix, prefix_of};
use crate::search::chosen;
use byte_map::{Bytes, sorted};

/// How many of the chunks begin at or below `key`, whose prefix this is. The search begins with the
/// guess `near`.
pub(crate) fn count_up_to(chunks: &[Chunk], key: &[u8], prefix: &Prefix, near: usize) -> usize
    requires sorted { IsSorted (joined chunks.now) }
    requires full { AllFull chunks.now }
    requires prefix { IsPrefix prefix.now key.now }
    ensures { IsCountUpTo chunks.now key.now result }
{
    let mut low = 0;
    let mut high = chunks.len();
    while low < high {
        let middle = chosen(low, high, near, near);
        if chunks[middle].begins_above(key, prefix) {
            high = middle;
        } else {
            low = middle + 1;
        }
    }
    low
}

/// The chunk that `key` belongs to, of those from a place on: the last one that begins at or below
/// it, or the first. The search begins with the guess `near`.
pub(crate) fn place_of(chunks: &[Chunk], from: usize, key: &[u8], near: usize) -> usize
    requires sorted { IsSorted (joined chunks.now) }
    requires full { AllFull chunks.now }
    requires in_range { from ≤ length chunks.now }
    ensures ahead { from ≤ result }
    ensures in_range { result ≤ length chunks.now }
    ensures before { T (all_below (joined (drop from (take result chunks.now))) key.now) }
    ensures after { T (below_all bytes_cmp key.now (joined (drop (result + 1) chunks.now))) }
{
    let rest = chunks.split_at(from).1;
    let count = count_up_to(rest, key, &prefix_of(key), near);
    if count == 0 { from } else { from + (count - 1) }
}

/// How many of the writes fall before the chunks from a place on.
pub(crate) fn count_before(
    writes: &[(Bytes, Option<Bytes>)],
    chunks: &[Chunk],
    from: usize,
) -> usize
    requires writes { IsSorted writes.now }
    requires full { AllFull chunks.now }
    ensures in_range { result ≤ length writes.now }
    ensures all { length chunks.now ≤ from → result ≡ length writes.now }
    ensures some { (w : List ℕ × Option (List ℕ)) → Stands writes.now 0 w → T (below_all bytes_cmp w.0 (joined (drop from chunks.now))) → 0 < result }
    ensures parted { (page : List (List ℕ × List ℕ)) → IsSorted (page ++ joined (drop from chunks.now)) → changed_all (page ++ joined (drop from chunks.now)) writes.now ≡ changed_all page (take result writes.now) ++ changed_all (joined (drop from chunks.now)) (drop result writes.now) }
{
    if from < chunks.len() {
        sorted::first_from(writes, chunks[from].first_key())
    } else {
        writes.len()
    }
}
