//! Changes of chunks and pages that no snapshot shares, made in place.
ghost use Rattle.std.specs.Prelude.{◌≡◌, ◌+◌, ◌≤◌, ◌<◌, ◌^◌, true, IfSome, IfNone, length, is_none, false, List, ℕ};
ghost use Rattle.std.specs.List.{find};
ghost use Rattle.std.specs.Option.{option_copied};
ghost use Rattle.byte_map.specs.Sorted.{Entries, IsSorted, changed_all};
ghost use Rattle.page_map.specs.Empties.{empties};
ghost use Rattle.page_map.specs.inner.FlatPairs.{HasRoom, wanted};
ghost use Rattle.page_map.specs.Pages.{joined, AllFull};

use crate::chunk::Chunk;
use crate::chunks;
use crate::flat_pairs::FlatPairs;
use crate::page::{PAGE_LIMIT, Page, prefix_of};
use crate::rest::Near;
use crate::rewrite::{count_before, place_of};
use byte_map::Bytes;
use std::sync::Arc;

/// Makes all of `writes` in place, and returns how many pairs there are then of `len`. Changes no
/// chunk if a chunk or a page is shared, a page may have to be cut or be emptied, or memory is out.
/// The search for the first key begins at `near`.
#[cycle(writing)]
pub(crate) fn write_chunks(
    chunks: &mut [Chunk],
    len: usize,
    writes: &[(Bytes, Option<Bytes>)],
    near: Near,
) -> Option<usize>
    requires sorted { IsSorted (joined chunks.old) }
    requires full { AllFull chunks.old }
    requires writes { IsSorted writes.now }
    requires counted { length (joined chunks.old) ≤ len }
    requires few { len + length writes.now < 2 ^ 64 }
    ensures written { IfSome result (λ n. joined chunks.new ≡ changed_all (joined chunks.old) writes.now) }
    ensures counted { IfSome result (λ n. n + length (joined chunks.old) ≡ len + length (joined chunks.new)) }
    ensures full { AllFull chunks.new }
    ensures kept { IfNone result (chunks.new ≡ chunks.old) }
    ensures len { length chunks.new ≡ length chunks.old }
{
    let [(key, _), ..] = writes else {
        return Some(len);
    };
    let at = chunks::place_of(chunks, 0, key.as_slice(), near.chunk);
    if at >= chunks.len() {
        return None;
    }
    let count = chunks::count_before(writes, chunks, at + 1);
    let (here, later) = writes.split_at(count);
    let (prefix, behind) = chunks.split_at_mut(at + 1);
    let chunk = &mut prefix[at];
    let before = chunk.empties();
    let Some(held) = Arc::get_mut(&mut chunk.shared) else {
        return None;
    };
    let pages = held.as_mut_slice();
    let Some((total, count)) = write_pages(pages, behind, len, before, here, later, near) else {
        return None;
    };
    let first = &*pages;
    chunk.prefix = *first[0].first_prefix();
    chunk.empty_count = count;
    Some(total)
}

/// Makes the writes `here` in these pages, and those that come `later` in the chunks after them:
/// all of them or none. A page is changed on the way back, when nothing can fail any more. Returns
/// how many pairs there are then of `len`, and of `empty_count` how many that have an empty value.
#[cycle(writing)]
fn write_pages(
    pages: &mut [Page],
    behind: &mut [Chunk],
    len: usize,
    empty_count: usize,
    here: &[(Bytes, Option<Bytes>)],
    later: &[(Bytes, Option<Bytes>)],
    near: Near,
) -> Option<(usize, usize)>
    requires sorted { IsSorted (joined pages.old) }
    requires behind { IsSorted (joined behind.old) }
    requires full { AllFull behind.old }
    requires here { IsSorted here.now }
    requires later { IsSorted later.now }
    requires counted { length (joined pages.old) + length (joined behind.old) ≤ len }
    requires few { len + (length here.now + length later.now) < 2 ^ 64 }
    requires empties { length (empties (joined pages.old)) ≤ empty_count }
    requires few_empties { empty_count + length here.now < 2 ^ 64 }
    ensures written { IfSome result (λ n. joined pages.new ≡ changed_all (joined pages.old) here.now) }
    ensures behind { IfSome result (λ n. joined behind.new ≡ changed_all (joined behind.old) later.now) }
    ensures empties { IfSome result (λ n. n.1 + length (empties (joined pages.old)) ≡ empty_count + length (empties (joined pages.new))) }
    ensures few_empties { IfSome result (λ n. n.1 ≤ empty_count + length here.now) }
    ensures counted { IfSome result (λ n. n.0 + (length (joined pages.old) + length (joined behind.old)) ≡ len + (length (joined pages.new) + length (joined behind.new))) }
    ensures full { AllFull behind.new }
    ensures kept { IfNone result (pages.new ≡ pages.old) }
    ensures kept_behind { IfNone result (behind.new ≡ behind.old) }
    ensures len { length pages.new ≡ length pages.old }
    ensures len_behind { length behind.new ≡ length behind.old }
{
    let [(key, _), ..] = here else {
        let total = write_chunks(behind, len, later, Near::new())?;
        return Some((total, empty_count));
    };
    let at = place_of(pages, 0, key.as_slice(), near.page);
    if at >= pages.len() {
        return None;
    }
    let count = count_before(here, pages, at + 1);
    let (mine, rest) = here.split_at(count);
    let (prefix, back) = pages.split_at_mut(at + 1);
    let page = &mut prefix[at];
    let old_count = page.empties();
    let Some(pairs) = Arc::get_mut(&mut page.shared) else {
        return None;
    };
    let before = pairs.len();
    if !is_ready(pairs, mine) {
        return None;
    }
    let none = Near::new();
    let Some((total, left)) = write_pages(back, behind, len, empty_count, rest, later, none) else {
        return None;
    };
    let new_count = pairs.write_all_reserved(mine, old_count, near.at);
    page.prefix = prefix_of(pairs.pair(0).0);
    page.empty_count = new_count;
    Some((total - before + pairs.len(), left - old_count + new_count))
}

/// Makes room for these writes, if they neither cut nor empty the page.
fn is_ready(pairs: &mut FlatPairs, writes: &[(Bytes, Option<Bytes>)]) -> bool
    requires { IsSorted pairs.old.pairs }
    ensures kept { pairs.new.pairs ≡ pairs.old.pairs }
    ensures some { result ≡ true → 0 < length (changed_all pairs.old.pairs writes.now) }
    ensures few { result ≡ true → length pairs.old.pairs + length writes.now ≤ 128 }
    ensures room { result ≡ true → HasRoom pairs.new (wanted writes.now) (length writes.now) }
{
    let count = writes.len();
    let len = pairs.len();
    if len == 0 || len > PAGE_LIMIT || count > PAGE_LIMIT - len || pairs.is_worn() {
        return false;
    }
    if may_empty(len, writes) {
        return false;
    }
    match bytes_of(writes) {
        Some(bytes) => pairs.reserve(bytes, count).is_ok(),
        None => false,
    }
}

/// Whether these writes may leave nothing of so many pairs.
fn may_empty(len: usize, writes: &[(Bytes, Option<Bytes>)]) -> bool
    ensures { (es : Entries (List ℕ)) → IsSorted es → length es ≡ len → 0 < len → result ≡ false → 0 < length (changed_all es writes.now) }
{
    if writes.len() < len {
        return false;
    }
    first_removal(writes).is_some()
}

/// The first write that removes a pair.
fn first_removal<'a>(writes: &'a [(Bytes, Option<Bytes>)]) -> Option<&'a (Bytes, Option<Bytes>)>
    ensures { option_copied result ≡ find (λ w. is_none w.1) writes.now }
{
    writes.iter().find(|write| write.1.is_none())
}

/// How many bytes the writes lay.
fn bytes_of(writes: &[(Bytes, Option<Bytes>)]) -> Option<usize>
    ensures { IfSome result (λ n. n ≡ wanted writes.now) }
{
    let mut total = 0usize;
    for (key, change) in writes {
        if let Some(value) = change {
            total = total.checked_add(key.len())?.checked_add(value.len())?;
        }
    }
    Some(total)
}
