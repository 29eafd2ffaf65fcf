//! Control records, points and drafts by hand, as `entry_code` writes them: the version 01, then
//! numbers by their bytes, the highest first, a byte for each variant, and lists, names and keys after
//! how many items they have, in eight bytes.
use byte_map::{Bytes, KeyMap};
use entry_code::{
    CodeFault, borrowed_draft_bytes, draft_parts_bytes, draft_parts_of, points_bytes, points_of,
    reorg_parts_bytes, reorg_parts_of, schema_parts_bytes, schema_parts_of,
};
use row_map::KeyRange;
use std::alloc::{AllocError, Global};

/// What bytes are the code of.
#[derive(Clone, Copy)]
enum What {
    Version,
    Reorg,
    Points,
    Draft,
}

use What::{Draft, Points, Reorg, Version};

/// The code of what these bytes are read as.
fn again(alloc: Global, what: What, bytes: &[u8]) -> Result<Vec<u8>, CodeFault> {
    let code = match what {
        Version => {
            let parts = schema_parts_of(alloc, bytes)?;
            let code = schema_parts_bytes(alloc, &parts);
            drop(parts);
            code
        }
        Reorg => {
            let parts = reorg_parts_of(alloc, bytes)?;
            let code = reorg_parts_bytes(alloc, &parts);
            drop(parts);
            code
        }
        Points => {
            let points = points_of(alloc, bytes)?;
            let code = points_bytes(alloc, &points);
            drop(points);
            code
        }
        Draft => {
            let parts = draft_parts_of(alloc, bytes)?;
            let code = draft_parts_bytes(alloc, &parts);
            drop(parts);
            code
        }
    };
    Ok(code?)
}

/// Whether they are read, and have the same code again.
fn reported(alloc: Global, what: What, bytes: &[u8]) -> Result<bool, CodeFault> {
    Ok(again(alloc, what, bytes)?.as_slice() == bytes)
}

/// The same, asked once more if memory was short.
fn asked(alloc: Global, what: What, bytes: &[u8]) -> Result<bool, CodeFault> {
    match reported(alloc, what, bytes) {
        Err(CodeFault::Memory) => reported(alloc, what, bytes),
        reported => reported,
    }
}

/// Table t has the key `id` and the optional number `a`, element 1, which is public.
const VERSION: &[u8] = b"\x01\
\0\0\0\0\0\0\0\x01\0\0\0\0\0\0\0\x01t\0\0\0\0\0\0\0\x01\0\0\0\0\0\0\0\x02id\0\
\0\0\0\0\0\0\0\x01\
\0\0\0\x01\0\0\0\x01\0\0\0\0\0\0\0\x01a\x01\0\x03\0\
\0\0\0\x02";

/// The clear of index i on column 1, element 2, write-only and going out, in two pieces that meet at
/// X 01.
const REORG: &[u8] = b"\x01\
\0\0\0\x02\0\0\0\x01\0\0\0\0\0\0\0\x01i\0\0\0\0\0\0\0\0\x01\0\0\0\x01\x02\x01\
\x01\
\0\0\0\0\0\0\0\x02\
\0\0\0\0\0\0\0\x01X\0\0\0\0\0\0\0\x02X\x01\
\0\0\0\0\0\0\0\x02X\x01\0\0\0\0\0\0\0\x01Y";

/// The key a without a value, and b with the value x.
const POINTS: &[u8] = b"\x01\
\0\0\0\0\0\0\0\x02\
\0\0\0\0\0\0\0\x01a\0\
\0\0\0\0\0\0\0\x01b\x01\0\0\0\0\0\0\0\x01x";

/// There is no a, and from b to c only b 01, with x; then a is put with no byte, and b 01 removed.
const DRAFT: &[u8] = b"\x01\
\0\0\0\0\0\0\0\x01\
\0\0\0\0\0\0\0\x01a\0\
\0\0\0\0\0\0\0\x01\
\0\0\0\0\0\0\0\x01b\0\0\0\0\0\0\0\x01c\
\0\0\0\0\0\0\0\x01\
\0\0\0\0\0\0\0\x02b\x01\0\0\0\0\0\0\0\x01x\
\0\0\0\0\0\0\0\x02\
\0\0\0\0\0\0\0\x01a\x01\0\0\0\0\0\0\0\0\
\0\0\0\0\0\0\0\x02b\x01\0";

fn point(
    alloc: Global,
    key: &[u8],
    value: Option<&[u8]>,
) -> Result<(Bytes, Option<Bytes>), AllocError> {
    let key = Bytes::from_slice(alloc, key)?;
    match value {
        None => Ok((key, None)),
        Some(value) => Ok((key, Some(Bytes::from_slice(alloc, value)?))),
    }
}

/// From b to c only b 01, with x.
fn range(alloc: Global) -> Result<KeyRange, AllocError> {
    let mut pairs = KeyMap::new(alloc);
    pairs.insert(
        Bytes::from_slice(alloc, b"b\x01")?,
        Bytes::from_slice(alloc, b"x")?,
    )?;
    let low = Bytes::from_slice(alloc, b"b")?;
    let high = Bytes::from_slice(alloc, b"c")?;
    Ok(KeyRange { low, high, pairs })
}

/// The code of `DRAFT`, from points and pairs that are borrowed.
fn borrowed(alloc: Global) -> Result<Vec<u8>, AllocError> {
    let absent = [point(alloc, b"a", None)?];
    let put = [point(alloc, b"a", Some(b""))?];
    let removed = [point(alloc, b"b\x01", None)?];
    let range = Some(range(alloc)?);
    borrowed_draft_bytes(alloc, (&absent, &[]), &range, (&put, &removed))
}

/// Whether it has these bytes; made once more if memory was short.
fn is_borrowed_as(alloc: Global, bytes: &[u8]) -> bool {
    let code = match borrowed(alloc) {
        Err(_) => borrowed(alloc),
        code => code,
    };
    match code {
        Ok(code) => code.as_slice() == bytes,
        Err(_) => false,
    }
}

/// Bytes, what they are the code of, and what is reported of them.
const CODES: &[(What, &[u8], Result<bool, CodeFault>)] = &[
    (Version, VERSION, Ok(true)),
    (Reorg, REORG, Ok(true)),
    (Points, POINTS, Ok(true)),
    (Draft, DRAFT, Ok(true)),
    (Points, b"\x01\0\0\0\0\0\0\0\0", Ok(true)),
    (Points, b"", Err(CodeFault::Version)),
    (Points, b"\x01\0\0\0\0\0\0\0\0\0", Err(CodeFault::Trailing)),
    // a value that is neither there nor absent
    (
        Points,
        b"\x01\0\0\0\0\0\0\0\x01\0\0\0\0\0\0\0\x01a\x02",
        Err(CodeFault::Malformed),
    ),
];

#[test]
fn under_refusal_parts_are_read_and_written_so(rt: HostRuntime) {
    assert!(rt; rt.println("from here on").is_ok());
    for (what, bytes, want) in CODES {
        assert!(rt; asked(rt.alloc(), *what, bytes) == *want, "{bytes:?}");
    }
}

#[test]
fn under_refusal_a_borrowed_draft_is_written_so(rt: HostRuntime) {
    assert!(rt; rt.println("from here on").is_ok());
    assert!(rt; is_borrowed_as(rt.alloc(), DRAFT));
}

#[test]
fn parts_that_are_cut_are_refused(rt: HostRuntime) {
    for (what, bytes, _) in &CODES[..4] {
        for end in 1..bytes.len() {
            assert!(rt;
                reported(rt.alloc(), *what, &bytes[..end]) == Err(CodeFault::Malformed),
                "{end}"
            );
        }
    }
}
