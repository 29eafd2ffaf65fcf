//! Codes by hand: the version 01, then numbers by their bytes, the highest first, a byte for each
//! variant, and lists, names and cursors after how many items they have, in eight bytes.
use entry_code::{
    CodeFault, changes_bytes, changes_of, entry_bytes, entry_of, opening_bytes, opening_of,
    ops_bytes, ops_of, plan_bytes, plan_of, query_bytes, query_of, rows_bytes, rows_of, step_bytes,
    step_of,
};
use std::alloc::{AllocError, Global};

/// What bytes are the code of.
#[derive(Clone, Copy)]
enum What {
    Entry,
    Ops,
    Step,
    Opening,
    Query,
    Rows,
    Changes,
    Plan,
}

use What::{Changes, Entry, Opening, Ops, Plan, Query, Rows, Step};

fn opening_again(alloc: Global, bytes: &[u8]) -> Result<Vec<u8>, CodeFault> {
    let (length, tables) = opening_of(alloc, bytes)?;
    Ok(opening_bytes(alloc, length, &tables)?)
}

/// The code of what these bytes are read as. Each value goes by a `drop` before the exits are
/// joined, where a value of each kind would be dear to prove.
fn again(alloc: Global, what: What, bytes: &[u8]) -> Result<Vec<u8>, CodeFault> {
    let code = match what {
        Entry => {
            let entry = entry_of(alloc, bytes)?;
            let code = entry_bytes(alloc, &entry);
            drop(entry);
            code
        }
        Ops => {
            let ops = ops_of(alloc, bytes)?;
            let code = ops_bytes(alloc, &ops);
            drop(ops);
            code
        }
        Step => {
            let step = step_of(alloc, bytes)?;
            let code = step_bytes(alloc, &step);
            drop(step);
            code
        }
        Opening => return opening_again(alloc, bytes),
        Query => {
            let query = query_of(alloc, bytes)?;
            let code = query_bytes(alloc, &query);
            drop(query);
            code
        }
        Rows => {
            let rows = rows_of(alloc, bytes)?;
            let code = rows_bytes(alloc, &rows);
            drop(rows);
            code
        }
        Changes => {
            let changes = changes_of(alloc, bytes)?;
            let code = changes_bytes(alloc, changes.as_slice());
            drop(changes);
            code
        }
        Plan => {
            let steps = plan_of(alloc, bytes)?;
            let code = plan_bytes(alloc, steps.as_slice());
            drop(steps);
            code
        }
    };
    Ok(code?)
}

/// Whether they are read, and have the same code again.
fn is_read(alloc: Global, what: What, bytes: &[u8]) -> Result<bool, CodeFault> {
    Ok(again(alloc, what, bytes)?.as_slice() == bytes)
}

/// The same, asked once more if memory was short.
fn reported(alloc: Global, what: What, bytes: &[u8]) -> Result<bool, CodeFault> {
    match is_read(alloc, what, bytes) {
        Err(CodeFault::Memory) => is_read(alloc, what, bytes),
        reported => reported,
    }
}

/// Bytes, what they are the code of, and what is reported of them.
const CODES: &[(What, &[u8], Result<bool, CodeFault>)] = &[
    // at 0 a lease on version 1 from 0 until 10
    (
        Entry,
        b"\x01\0\0\0\0\0\0\0\0\0\0\0\0\0\0\0\0\x01\0\0\0\0\0\0\0\0\0\0\0\0\0\0\0\x0a",
        Ok(true),
    ),
    // at 1, under it, table 1: row 7 goes
    (
        Entry,
        b"\x01\0\0\0\0\0\0\0\x01\x01\0\0\0\0\0\0\0\x01\0\0\0\0\0\0\0\0\0\0\0\0\0\0\0\x0a\0\0\0\0\0\0\0\x01\x02\0\0\0\x01\0\0\0\0\0\0\0\x01\x02\x80\0\0\0\0\0\0\x07",
        Ok(true),
    ),
    // at 10 the element 2 goes to public
    (
        Entry,
        b"\x01\0\0\0\0\0\0\0\x0a\x02\0\0\0\0\0\0\0\x01\x01\0\0\0\x02\x03",
        Ok(true),
    ),
    // at 30 the reorganisation of the element 2 begins in one piece
    (
        Entry,
        b"\x01\0\0\0\0\0\0\0\x1e\x03\0\0\0\x02\0\0\0\x01",
        Ok(true),
    ),
    // and its piece 0 comes to the key 52 00
    (
        Entry,
        b"\x01\0\0\0\0\0\0\0\x1e\x04\0\0\0\x02\0\0\0\0\0\0\0\0\0\0\0\x02\x52\0",
        Ok(true),
    ),
    // insert into table 1 the key "a", true with nothing in column 1; update it to have 5 there
    (
        Ops,
        b"\x01\0\0\0\0\0\0\0\x02\0\0\0\0\x01\0\0\0\0\0\0\0\x02\x03a\0\x01\x04\x01\0\0\0\0\0\0\0\x01\0\0\0\x01\x01\x01\0\0\0\x01\0\0\0\0\0\0\0\x02\x03a\0\x01\x04\x01\0\0\0\0\0\0\0\x01\0\0\0\x01\x02\x80\0\0\0\0\0\0\x05",
        Ok(true),
    ),
    // an index i on column 1, an optional text o and a required number r with 5 enter, and 2 turns
    (
        Step,
        b"\x01\0\0\0\0\0\0\0\x04\0\0\0\0\x01\0\0\0\0\0\0\0\x01i\0\0\0\0\0\0\0\0\x01\0\0\0\x01\x01\0\0\0\0\x01\0\0\0\0\0\0\0\x01o\x01\x01\x01\0\0\0\0\x01\0\0\0\0\0\0\0\x01r\x02\0\x02\x80\0\0\0\0\0\0\x05\x02\x02\0\0\0\x02",
        Ok(true),
    ),
    // leases of 10, and t (id int key, a bool) with the index i on a
    (
        Opening,
        b"\x01\0\0\0\0\0\0\0\x0a\0\0\0\0\0\0\0\x01\0\0\0\0\0\0\0\x01t\0\0\0\0\0\0\0\x01\0\0\0\0\0\0\0\x02id\0\0\0\0\0\0\0\0\x01\0\0\0\0\0\0\0\x01a\x02\0\0\0\0\0\0\0\x01\0\0\0\0\0\0\0\x01i\0\0\0\0\0\0\0\x01\0\0\0\0\0\0\0\x01a",
        Ok(true),
    ),
    // columns 2 and 3 of table 1, of row 7, if it has nothing in 2 and a text from "a" on in 3
    (
        Query,
        b"\x01\0\0\0\x01\0\0\0\0\0\0\0\x02\0\0\0\x02\0\0\0\x03\0\0\0\0\0\0\0\x03\0\0\0\0\0\0\0\0\x01\x02\x80\0\0\0\0\0\0\x07\x01\0\0\0\x02\x01\x02\0\0\0\x03\x01\x03a\0\x01\0",
        Ok(true),
    ),
    // a bound that is neither there nor absent
    (
        Query,
        b"\x01\0\0\0\x01\0\0\0\0\0\0\0\0\0\0\0\0\0\0\0\x01\x02\0\0\0\x03\x02\x01\0",
        Err(CodeFault::Malformed),
    ),
    // the row 7, with 5 in column 1
    (
        Rows,
        b"\x01\0\0\0\0\0\0\0\x01\0\0\0\0\0\0\0\x01\x02\x80\0\0\0\0\0\0\x07\0\0\0\0\0\0\0\x01\0\0\0\x01\x02\x80\0\0\0\0\0\0\x05",
        Ok(true),
    ),
    // of table 1: index i on a and b in, j out, optional text c in, number d with 5 in, e out, k back
    (
        Changes,
        b"\x01\0\0\0\0\0\0\0\x06\0\0\0\0\x01\0\0\0\0\0\0\0\x01i\0\0\0\0\0\0\0\x02\0\0\0\0\0\0\0\x01a\0\0\0\0\0\0\0\x01b\x01\0\0\0\x01\0\0\0\0\0\0\0\x01j\x02\0\0\0\x01\0\0\0\0\0\0\0\x01c\x01\x01\x02\0\0\0\x01\0\0\0\0\0\0\0\x01d\x02\0\x02\x80\0\0\0\0\0\0\x05\x03\0\0\0\x01\0\0\0\0\0\0\0\x01e\x04\0\0\0\x01\0\0\0\0\0\0\0\x01k",
        Ok(true),
    ),
    // 3 goes write-only; once 2 is filled and 3 cleared, they go public and absent
    (
        Plan,
        b"\x01\0\0\0\0\0\0\0\x02\0\0\0\0\0\0\0\0\0\0\0\0\0\0\0\x01\x01\0\0\0\x03\x02\0\0\0\0\0\0\0\x02\0\0\0\0\x02\x01\0\0\0\x03\0\0\0\0\0\0\0\x02\x01\0\0\0\x02\x03\x01\0\0\0\x03\0",
        Ok(true),
    ),
    // a change of no kind
    (
        Changes,
        b"\x01\0\0\0\0\0\0\0\x01\x05\0\0\0\x01\0\0\0\0\0\0\0\x01e",
        Err(CodeFault::Malformed),
    ),
    (Ops, b"\x01\0\0\0\0\0\0\0\0", Ok(true)),
    (Ops, b"", Err(CodeFault::Version)),
    (Ops, b"\x02\0\0\0\0\0\0\0\0", Err(CodeFault::Version)),
    (Step, b"\x01\0\0\0\0\0\0\0\0\0", Err(CodeFault::Trailing)),
    (Step, b"\x01\0\0\0\0\0\0\0", Err(CodeFault::Malformed)),
    (
        Step,
        b"\x01\0\0\0\0\0\0\0\x01\x03",
        Err(CodeFault::Malformed),
    ),
    // more items, and more bytes, than there is memory for
    (
        Ops,
        b"\x01\xff\xff\xff\xff\xff\xff\xff\xff\x02\0\0\0\x01\0\0\0\0\0\0\0\0",
        Err(CodeFault::Malformed),
    ),
    (
        Entry,
        b"\x01\0\0\0\0\0\0\0\x1e\x04\0\0\0\x02\0\0\0\0\xff\xff\xff\xff\xff\xff\xff\xff\x52",
        Err(CodeFault::Malformed),
    ),
];

#[test]
fn under_refusal_codes_are_read_and_written_so(rt: HostRuntime) {
    assert!(rt; rt.println("from here on").is_ok());
    for (what, bytes, want) in CODES {
        assert!(rt; reported(rt.alloc(), *what, bytes) == *want, "{bytes:?}");
    }
}
