//! The bytes of two checkpoints, worked out by hand. Leases last 10. Table 1, t, has the key `id` and
//! the column `a`, element 1, both numbers.
//!
//! The key of a row's pair is R, the table, the key of the row and the element, or 0 for the `exists`
//! pair; that of an index's pair is X, the element, the value and the key of the row. A number is 02
//! and its eight bytes with the highest bit flipped.
use std::alloc::{AllocError, Global};

/// 10 entries came before, the last at 31. Versions were published at 0, 10, 20 and 31. In the newest
/// one the index `i` on `a`, element 2, is write-only and the column `b`, element 3, delete-only; in
/// the one before there is no `b`. The fill of `i` has come from the begin of the table's rows to row
/// 2.
pub(crate) const HEAD: &[u8] = b"\x01\
\0\0\0\0\0\0\0\x0a\0\0\0\0\0\0\0\x1f\0\0\0\0\0\0\0\x0a\
\0\0\0\0\0\0\0\x04\0\0\0\0\0\0\0\0\0\0\0\0\0\0\0\x0a\0\0\0\0\0\0\0\x14\0\0\0\0\0\0\0\x1f\
\0\0\0\0\0\0\0\x01\0\0\0\0\0\0\0\x01t\0\0\0\0\0\0\0\x01\0\0\0\0\0\0\0\x02id\0\
\0\0\0\0\0\0\0\x03\
\0\0\0\x01\0\0\0\x01\0\0\0\0\0\0\0\x01a\x01\0\x03\0\
\0\0\0\x02\0\0\0\x01\0\0\0\0\0\0\0\x01i\0\0\0\0\0\0\0\0\x01\0\0\0\x01\x02\0\
\0\0\0\x03\0\0\0\x01\0\0\0\0\0\0\0\x01b\x01\0\x01\0\
\0\0\0\x04\
\x01\
\0\0\0\0\0\0\0\x01\0\0\0\0\0\0\0\x01t\0\0\0\0\0\0\0\x01\0\0\0\0\0\0\0\x02id\0\
\0\0\0\0\0\0\0\x02\
\0\0\0\x01\0\0\0\x01\0\0\0\0\0\0\0\x01a\x01\0\x03\0\
\0\0\0\x02\0\0\0\x01\0\0\0\0\0\0\0\x01i\0\0\0\0\0\0\0\0\x01\0\0\0\x01\x02\0\
\0\0\0\x03\
\0\0\0\0\0\0\0\x01\
\0\0\0\x02\0\0\0\x01\0\0\0\0\0\0\0\x01i\0\0\0\0\0\0\0\0\x01\0\0\0\x01\x02\0\
\0\
\0\0\0\0\0\0\0\x01\
\0\0\0\0\0\0\0\x05R\0\0\0\x01\0\0\0\0\0\0\0\x05R\0\0\0\x02\
\0\0\0\0\0\0\0\x12R\0\0\0\x01\x02\x80\0\0\0\0\0\0\x02\0\0\0\0";

/// Nothing came before: version 1 was published at 0.
pub(crate) const EMPTY_HEAD: &[u8] = b"\x01\
\0\0\0\0\0\0\0\0\0\0\0\0\0\0\0\0\0\0\0\0\0\0\0\x0a\
\0\0\0\0\0\0\0\x01\0\0\0\0\0\0\0\0\
\0\0\0\0\0\0\0\x01\0\0\0\0\0\0\0\x01t\0\0\0\0\0\0\0\x01\0\0\0\0\0\0\0\x02id\0\
\0\0\0\0\0\0\0\x01\
\0\0\0\x01\0\0\0\x01\0\0\0\0\0\0\0\x01a\x01\0\x03\0\
\0\0\0\x02\
\0\
\0\0\0\0\0\0\0\0";

/// The same of an opening in which `a` has texts.
pub(crate) const OTHER_HEAD: &[u8] = b"\x01\
\0\0\0\0\0\0\0\0\0\0\0\0\0\0\0\0\0\0\0\0\0\0\0\x0a\
\0\0\0\0\0\0\0\x01\0\0\0\0\0\0\0\0\
\0\0\0\0\0\0\0\x01\0\0\0\0\0\0\0\x01t\0\0\0\0\0\0\0\x01\0\0\0\0\0\0\0\x02id\0\
\0\0\0\0\0\0\0\x01\
\0\0\0\x01\0\0\0\x01\0\0\0\0\0\0\0\x01a\x01\x01\x03\0\
\0\0\0\x02\
\0\
\0\0\0\0\0\0\0\0";

/// A pair of a store.
pub(crate) type Pair = (&'static [u8], &'static [u8]);

/// Row 1 has 5 in `a`, row 2 has 6 and row 3 has 5; the index has the pair of row 1.
pub(crate) const PAIRS: &[Pair] = &[
    (b"R\0\0\0\x01\x02\x80\0\0\0\0\0\0\x01\0\0\0\0", b""),
    (
        b"R\0\0\0\x01\x02\x80\0\0\0\0\0\0\x01\0\0\0\x01",
        b"\x02\x80\0\0\0\0\0\0\x05",
    ),
    (b"R\0\0\0\x01\x02\x80\0\0\0\0\0\0\x02\0\0\0\0", b""),
    (
        b"R\0\0\0\x01\x02\x80\0\0\0\0\0\0\x02\0\0\0\x01",
        b"\x02\x80\0\0\0\0\0\0\x06",
    ),
    (b"R\0\0\0\x01\x02\x80\0\0\0\0\0\0\x03\0\0\0\0", b""),
    (
        b"R\0\0\0\x01\x02\x80\0\0\0\0\0\0\x03\0\0\0\x01",
        b"\x02\x80\0\0\0\0\0\0\x05",
    ),
    (
        b"X\0\0\0\x02\x02\x80\0\0\0\0\0\0\x05\x02\x80\0\0\0\0\0\0\x01",
        b"",
    ),
];

// How many bytes or pairs, in eight bytes; all counts here are below 65,536.
fn push_count(out: &mut Vec<u8>, count: usize) -> Result<(), AllocError> {
    let high = (count / 256 % 256) as u8;
    let low = (count % 256) as u8;
    out.extend_from_slice(&[0, 0, 0, 0, 0, 0, high, low])
}

fn push_part(out: &mut Vec<u8>, part: &[u8]) -> Result<(), AllocError> {
    push_count(out, part.len())?;
    out.extend_from_slice(part)
}

/// A page of these pairs: the version of the code, how many they are, and the parts.
pub(crate) fn page(alloc: Global, pairs: &[Pair]) -> Result<Vec<u8>, AllocError> {
    let mut out = Vec::new(alloc);
    out.push(1)?;
    push_count(&mut out, pairs.len())?;
    for (key, value) in pairs {
        push_part(&mut out, key)?;
        push_part(&mut out, value)?;
    }
    Ok(out)
}

fn push_page(alloc: Global, out: &mut Vec<u8>, pairs: &[Pair]) -> Result<(), AllocError> {
    if pairs.is_empty() {
        return Ok(());
    }
    let page = page(alloc, pairs)?;
    push_part(out, page.as_slice())
}

/// A checkpoint of this head and these pairs, of which there are at most 1,000.
pub(crate) fn whole(alloc: Global, head: &[u8], pairs: &[Pair]) -> Result<Vec<u8>, AllocError> {
    let mut out = Vec::new(alloc);
    push_part(&mut out, head)?;
    push_page(alloc, &mut out, pairs)?;
    push_part(&mut out, &[])?;
    Ok(out)
}

/// What saved bytes begin with.
pub(crate) const MARKER: &[u8] = b"\x89CAGZ\r\n\x1a";

/// SHA-256 of the marker and the parts of `HEAD` and `PAIRS`, by `sha256sum`.
pub(crate) const WORKED_DIGEST: &[u8] = b"\
\xd3\x2d\xb1\xcd\x60\xe3\xf1\x07\x15\x09\x7f\x47\xcf\xf0\x05\x8d\
\x27\xde\x5e\xa6\xe5\xd7\xc6\x93\x3f\x4f\x36\x22\xb4\xc2\xb7\x36";

/// The same of `EMPTY_HEAD` without pairs.
pub(crate) const EMPTY_DIGEST: &[u8] = b"\
\x0d\x8e\x2e\xd4\x2c\x02\xa0\x3e\x6a\x61\x24\x21\x0b\xb4\x7b\xa7\
\xa2\x81\x6d\x2e\xde\x6f\x32\x52\x6f\xe1\xf3\x56\xa8\xa7\xf1\xfa";

/// The marker, these parts, and their digest.
pub(crate) fn saved_bytes(
    alloc: Global,
    parts: &[u8],
    digest: &[u8],
) -> Result<Vec<u8>, AllocError> {
    let mut out = Vec::new(alloc);
    out.extend_from_slice(MARKER)?;
    out.extend_from_slice(parts)?;
    out.extend_from_slice(digest)?;
    Ok(out)
}

/// The parts in saved bytes; none if there are fewer bytes than beside parts.
pub(crate) fn parts_in(saved: &[u8]) -> &[u8] {
    if saved.len() < 40 {
        return &[];
    }
    &saved[8..saved.len() - 32]
}

/// A checkpoint of `EMPTY_HEAD` and the rows 0 to 1,000 without a value in `a`: a page of 1,000 pairs,
/// and one more.
pub(crate) fn many(alloc: Global) -> Result<Vec<u8>, AllocError> {
    let mut out = Vec::new(alloc);
    push_part(&mut out, EMPTY_HEAD)?;
    push_rows(alloc, &mut out, 0, 1000)?;
    push_rows(alloc, &mut out, 1000, 1001)?;
    push_part(&mut out, &[])?;
    Ok(out)
}

// Adds a page of the `exists` pairs of these rows.
fn push_rows(alloc: Global, out: &mut Vec<u8>, from: u16, to: u16) -> Result<(), AllocError> {
    let mut page = Vec::new(alloc);
    page.push(1)?;
    push_count(&mut page, to.saturating_sub(from) as usize)?;
    for row in from..to {
        let [high, low] = row.to_be_bytes();
        push_count(&mut page, 18)?;
        page.extend_from_slice(b"R\0\0\0\x01\x02\x80\0\0\0\0\0")?;
        page.extend_from_slice(&[high, low, 0, 0, 0, 0])?;
        push_count(&mut page, 0)?;
    }
    push_part(out, page.as_slice())
}
