//! What a page becomes by writes: pages that are made anew.
ghost use Rattle.std.specs.Prelude.{◌≡◌, ◌+◌, ◌++◌, ◌<◌, IfOk, IfSome, length, take, drop};
ghost use Rattle.byte_map.specs.Sorted.{IsSorted, changed_all};
ghost use Rattle.page_map.specs.Pages.{joined};

use crate::cut::{cut, cut_at};
use crate::flat_pairs::FlatPairs;
use crate::page::{PAGE_LIMIT, Page, prefix_of};
use byte_map::{Bytes, words};
use std::alloc::{AllocError, Global};

/// What the page at a place becomes by these writes, or none if there is no page: the pages, and how
/// many pairs they have.
pub(crate) fn renewed(
    alloc: Global,
    pages: &[Page],
    at: usize,
    writes: &[(Bytes, Option<Bytes>)],
) -> Result<(Vec<Page>, usize), AllocError>
    requires sorted { IsSorted (joined pages.now) }
    requires writes { IsSorted writes.now }
    ensures pages { IfOk result (λ r. joined r.0.items ≡ changed_all (joined (take 1 (drop at pages.now))) writes.now) }
    ensures many { IfOk result (λ r. r.1 ≡ length (changed_all (joined (take 1 (drop at pages.now))) writes.now)) }
{
    if let Some(more) = behind_full(alloc, pages, at, writes)? {
        return appended(alloc, &pages[at], more);
    }
    let pairs = rewritten(alloc, pages, at, writes)?;
    let many = pairs.len();
    let end = run_end(pages, at, writes);
    let new = if 0 < end && end < many && end <= PAGE_LIMIT && many > PAGE_LIMIT {
        cut_at(alloc, &pairs, end)?
    } else {
        cut(alloc, pairs, is_behind(pages, at, writes))?
    };
    Ok((new, many))
}

/// The pairs that the writes put, if all of them fall behind the page at a place and do not find
/// room there: then none of its pairs has to be copied.
fn behind_full(
    alloc: Global,
    pages: &[Page],
    at: usize,
    writes: &[(Bytes, Option<Bytes>)],
) -> Result<Option<FlatPairs>, AllocError>
    requires sorted { IsSorted (joined pages.now) }
    requires writes { IsSorted writes.now }
    ensures there { IfOk result (λ r. IfSome r (λ more. at < length pages.now)) }
    ensures behind { IfOk result (λ r. IfSome r (λ more. changed_all (joined (take 1 (drop at pages.now))) writes.now ≡ joined (take 1 (drop at pages.now)) ++ more.pairs)) }
{
    if at >= pages.len() || !is_behind(pages, at, writes) {
        return Ok(None);
    }
    let pairs = pages[at].pairs();
    let [(first, _), ..] = writes else {
        return Ok(None);
    };
    let key = first.as_slice();
    if pairs.len().saturating_add(writes.len()) <= PAGE_LIMIT
        || pairs.first_from(key, &prefix_of(key), usize::MAX) < pairs.len()
    {
        return Ok(None);
    }
    // room for the writes after these, of about as many bytes
    let most = writes.len().max(PAGE_LIMIT);
    let bytes = bytes_of(writes).saturating_mul(most) / writes.len();
    let more = FlatPairs::with_capacity(alloc, bytes, most)?;
    Ok(Some(write_all(more, writes)?))
}

/// A page as it is, and pages of more pairs behind it; and how many pairs they have.
fn appended(alloc: Global, page: &Page, more: FlatPairs) -> Result<(Vec<Page>, usize), AllocError>
    ensures pages { IfOk result (λ r. joined r.0.items ≡ page.now ++ more.pairs) }
    ensures many { IfOk result (λ r. r.1 ≡ length (page.now ++ more.pairs)) }
{
    let many = sum(page.pairs().len(), more.len())?;
    let mut new = Vec::new(alloc);
    new.push(page.clone()?)?;
    let mut rest = cut(alloc, more, true)?;
    new.append(&mut rest)?;
    Ok((new, many))
}

/// The pairs of the page at a place, or none if there is no page, after these writes.
fn rewritten(
    alloc: Global,
    pages: &[Page],
    at: usize,
    writes: &[(Bytes, Option<Bytes>)],
) -> Result<FlatPairs, AllocError>
    requires { IsSorted (joined pages.now) }
    ensures { IfOk result (λ pairs. pairs.pairs ≡ changed_all (joined (take 1 (drop at pages.now))) writes.now) }
{
    let pairs = copy_of(alloc, pages, at, bytes_of(writes), writes.len())?;
    write_all(pairs, writes)
}

fn copy_of(
    alloc: Global,
    pages: &[Page],
    at: usize,
    more_bytes: usize,
    more_pairs: usize,
) -> Result<FlatPairs, AllocError>
    ensures { IfOk result (λ pairs. pairs.pairs ≡ joined (take 1 (drop at pages.now))) }
{
    if at < pages.len() {
        pages[at].pairs().copied(alloc, more_bytes, more_pairs)
    } else {
        FlatPairs::with_capacity(alloc, more_bytes, more_pairs)
    }
}

fn write_all(
    mut pairs: FlatPairs,
    writes: &[(Bytes, Option<Bytes>)],
) -> Result<FlatPairs, AllocError>
    requires { IsSorted pairs.pairs }
    ensures { IfOk result (λ new. new.pairs ≡ changed_all pairs.pairs writes.now) }
{
    for (key, change) in writes {
        pairs.write(key.as_slice(), change)?;
    }
    Ok(pairs)
}

// About how many bytes the writes put. It only affects speed.
fn bytes_of(writes: &[(Bytes, Option<Bytes>)]) -> usize {
    let mut total = 0usize;
    for (key, change) in writes {
        if let Some(value) = change {
            total = total.saturating_add(key.len()).saturating_add(value.len());
        }
    }
    total
}

// Whether all writes fall after the last pair of the page at a place, as when keys rise. It says
// how the page is cut, and so shows in the speed alone.
fn is_behind(pages: &[Page], at: usize, writes: &[(Bytes, Option<Bytes>)]) -> bool {
    if at >= pages.len() {
        return true;
    }
    let pairs = pages[at].pairs();
    let last = pairs.pair(pairs.len() - 1).0;
    match writes.first() {
        Some((key, _)) => words::compare(last, key.as_slice()).is_lt(),
        None => false,
    }
}

// If the writes all fall behind the pair that was laid last, as when the keys of one value of an
// index rise: how many pairs the page has up to them. It says how the page is cut, and so shows in
// the speed alone.
fn run_end(pages: &[Page], at: usize, writes: &[(Bytes, Option<Bytes>)]) -> usize
    requires { IsSorted (joined pages.now) }
{
    if at >= pages.len() {
        return 0;
    }
    let (Some((first, _)), Some((last, _))) = (writes.first(), writes.last()) else {
        return 0;
    };
    let pairs = pages[at].pairs();
    let place = pairs.first_from(first.as_slice(), &prefix_of(first.as_slice()), usize::MAX);
    if place == 0 || place >= pairs.len() || !pairs.is_newest(place - 1) {
        return 0;
    }
    if words::compare(last.as_slice(), pairs.pair(place).0).is_lt() {
        place.saturating_add(writes.len())
    } else {
        0
    }
}

/// The sum of two counts. One that cannot be counted is answered as out of memory.
pub(crate) fn sum(one: usize, other: usize) -> Result<usize, AllocError>
    ensures { IfOk result (λ n. n ≡ one + other) }
{
    match one.checked_add(other) {
        Some(total) => Ok(total),
        None => Err(AllocError),
    }
}
