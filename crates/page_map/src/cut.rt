//! Pairs cut into the pages that they fill.
ghost use Rattle.std.specs.Prelude.{◌≡◌, ◌+◌, ◌*◌, ◌/◌, ◌≤◌, ◌<◌, true, false, IfOk, length};
ghost use Rattle.page_map.specs.Pages.{joined};

use crate::flat_pairs::FlatPairs;
use crate::page::{PAGE_LIMIT, Page};
use std::alloc::{AllocError, Global};

/// The most bytes of the pairs of a page that has more than one. A page that a snapshot shares is
/// copied at its first change, so this bounds what a change costs. It only affects speed.
const BYTES_LIMIT: usize = 16 * 1024;

/// Cuts pairs into pages: one if it may hold them all, and none if there are none. If the keys are
/// `rising`, the pages before the last are full; else the last two are about alike. Refused only
/// when out of memory.
pub(crate) fn cut(alloc: Global, pairs: FlatPairs, rising: bool) -> Result<Vec<Page>, AllocError>
    ensures { IfOk result (λ pages. joined pages.items ≡ pairs.pairs) }
{
    let len = pairs.len();
    if len == 0 {
        return Ok(Vec::new(alloc));
    }
    if len <= PAGE_LIMIT && pairs.size() <= BYTES_LIMIT {
        let mut pages = Vec::with_capacity(alloc, 1)?;
        pages.push(Page::new(alloc, pairs)?)?;
        return Ok(pages);
    }
    parts(alloc, &pairs, rising)
}

/// Cuts pairs into pages: those before a place, and those from there on. Refused only when out of
/// memory.
pub(crate) fn cut_at(alloc: Global, pairs: &FlatPairs, at: usize) -> Result<Vec<Page>, AllocError>
    requires { at ≤ length pairs.now.pairs }
    ensures { IfOk result (λ pages. joined pages.items ≡ pairs.now.pairs) }
{
    let mut pages = cut(alloc, pairs.part(alloc, 0, at)?, true)?;
    let mut rest = cut(alloc, pairs.part(alloc, at, pairs.len())?, true)?;
    pages.append(&mut rest)?;
    Ok(pages)
}

/// Copies pairs into pages.
fn parts(alloc: Global, pairs: &FlatPairs, rising: bool) -> Result<Vec<Page>, AllocError>
    ensures { IfOk result (λ pages. joined pages.items ≡ pairs.now.pairs) }
{
    let mut pages = Vec::new(alloc);
    let len = pairs.len();
    let mut at = 0;
    while at < len {
        let end = at + share(len - at, count_fitting(pairs, at), rising);
        pages.push(Page::new(alloc, pairs.part(alloc, at, end)?)?)?;
        at = end;
    }
    Ok(pages)
}

/// How many of the pairs that are left go into the next page, which may hold `most` of them.
fn share(left: usize, most: usize, rising: bool) -> usize
    requires some { 0 < most }
    requires in_range { most ≤ left }
    ensures some { 0 < result }
    ensures in_range { result ≤ most }
    ensures full { rising ≡ true → result ≡ most }
    ensures even { rising ≡ false → most < left → left < 2 * most → result ≡ left / 2 }
    ensures many { 2 * most ≤ left → result ≡ most }
    ensures last { left ≡ most → result ≡ most }
{
    if rising || most == left || left - most >= most {
        most
    } else {
        left / 2
    }
}

// How many of the pairs from a place on a page may hold. Fewer than fit would only affect speed.
fn count_fitting(pairs: &FlatPairs, at: usize) -> usize
    requires { at < length pairs.now.pairs }
    ensures some { 0 < result }
    ensures in_range { at + result ≤ length pairs.now.pairs }
    ensures fits { result ≤ 128 }
{
    let left = pairs.len() - at;
    let most = if left < PAGE_LIMIT { left } else { PAGE_LIMIT };
    let mut bytes = size(pairs.pair(at));
    let mut count = 1;
    while count < most {
        bytes = bytes.saturating_add(size(pairs.pair(at + count)));
        if bytes > BYTES_LIMIT {
            return count;
        }
        count += 1;
    }
    count
}

fn size((key, value): (&[u8], &[u8])) -> usize {
    key.len().saturating_add(value.len())
}
