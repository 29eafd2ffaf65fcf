//! Drafts that a store in memory applies or refuses, and what it then has, worked out by hand.
use crate::drafts_made::{CLOSE, COLUMN, EXISTS, FIVE, OPEN, PIECE, TXN, VERSION};
use draft_store::{ApplyFault, MemoryStore};
use entry_code::CodeFault;
use row_map::PairView;
use std::alloc::Global;

/// What comes of a draft.
#[derive(Clone, Copy, Debug)]
enum Answer {
    Applied,
    Bad(CodeFault),
    /// This is the least key whose pair is another.
    Refused(&'static [u8]),
}

/// A draft of nothing.
const NOTHING: &[u8] = b"\x01\
\0\0\0\0\0\0\0\0\
\0\0\0\0\0\0\0\0\
\0\0\0\0\0\0\0\0";

/// There is no a, and from b to d there is no pair; a, b 01 and c are put, c with no byte.
const PUT: &[u8] = b"\x01\
\0\0\0\0\0\0\0\x01\
\0\0\0\0\0\0\0\x01a\0\
\0\0\0\0\0\0\0\x01\
\0\0\0\0\0\0\0\x01b\0\0\0\0\0\0\0\x01d\
\0\0\0\0\0\0\0\0\
\0\0\0\0\0\0\0\x03\
\0\0\0\0\0\0\0\x01a\x01\0\0\0\0\0\0\0\x01x\
\0\0\0\0\0\0\0\x02b\x01\x01\0\0\0\0\0\0\0\x01y\
\0\0\0\0\0\0\0\x01c\x01\0\0\0\0\0\0\0\0";

/// From b to d there are b 01 with y and c with no byte; d is put with z.
const RANGE: &[u8] = b"\x01\
\0\0\0\0\0\0\0\0\
\0\0\0\0\0\0\0\x01\
\0\0\0\0\0\0\0\x01b\0\0\0\0\0\0\0\x01d\
\0\0\0\0\0\0\0\x02\
\0\0\0\0\0\0\0\x02b\x01\0\0\0\0\0\0\0\x01y\
\0\0\0\0\0\0\0\x01c\0\0\0\0\0\0\0\0\
\0\0\0\0\0\0\0\x01\
\0\0\0\0\0\0\0\x01d\x01\0\0\0\0\0\0\0\x01z";

/// From b to d there is c alone; a is removed.
const FEWER: &[u8] = b"\x01\
\0\0\0\0\0\0\0\0\
\0\0\0\0\0\0\0\x01\
\0\0\0\0\0\0\0\x01b\0\0\0\0\0\0\0\x01d\
\0\0\0\0\0\0\0\x01\
\0\0\0\0\0\0\0\x01c\0\0\0\0\0\0\0\0\
\0\0\0\0\0\0\0\x01\
\0\0\0\0\0\0\0\x01a\0";

/// c has no byte; a is removed, put with v, and put with w.
const AGAIN: &[u8] = b"\x01\
\0\0\0\0\0\0\0\x01\
\0\0\0\0\0\0\0\x01c\x01\0\0\0\0\0\0\0\0\
\0\0\0\0\0\0\0\0\
\0\0\0\0\0\0\0\x03\
\0\0\0\0\0\0\0\x01a\0\
\0\0\0\0\0\0\0\x01a\x01\0\0\0\0\0\0\0\x01v\
\0\0\0\0\0\0\0\x01a\x01\0\0\0\0\0\0\0\x01w";

/// There is no c; a has w, and there is no a.
const BOTH: &[u8] = b"\x01\
\0\0\0\0\0\0\0\x03\
\0\0\0\0\0\0\0\x01c\0\
\0\0\0\0\0\0\0\x01a\0\
\0\0\0\0\0\0\0\x01a\x01\0\0\0\0\0\0\0\x01w\
\0\0\0\0\0\0\0\0\
\0\0\0\0\0\0\0\0";

/// From c to e there is c alone, and from a to b there is a with w; b 01 is removed.
const TWO: &[u8] = b"\x01\
\0\0\0\0\0\0\0\0\
\0\0\0\0\0\0\0\x02\
\0\0\0\0\0\0\0\x01c\0\0\0\0\0\0\0\x01e\
\0\0\0\0\0\0\0\x01\
\0\0\0\0\0\0\0\x01c\0\0\0\0\0\0\0\0\
\0\0\0\0\0\0\0\x01a\0\0\0\0\0\0\0\x01b\
\0\0\0\0\0\0\0\x01\
\0\0\0\0\0\0\0\x01a\0\0\0\0\0\0\0\x01w\
\0\0\0\0\0\0\0\x01\
\0\0\0\0\0\0\0\x02b\x01\0";

type Story = (
    &'static [(&'static [u8], Answer)],
    &'static [(&'static [u8], &'static [u8])],
);

const LETTERS: Story = (
    &[
        (b"", Answer::Bad(CodeFault::Version)),
        (b"\x01\0", Answer::Bad(CodeFault::Malformed)),
        (
            b"\x01\0\0\0\0\0\0\0\0\0\0\0\0\0\0\0\0\0\0\0\0\0\0\0\0\0",
            Answer::Bad(CodeFault::Trailing),
        ),
        (NOTHING, Answer::Applied),
        (PUT, Answer::Applied),
        (PUT, Answer::Refused(b"a")),
        (RANGE, Answer::Applied),
        (FEWER, Answer::Refused(b"b\x01")),
        (AGAIN, Answer::Applied),
        (BOTH, Answer::Refused(b"a")),
        (TWO, Answer::Refused(b"d")),
        (RANGE, Answer::Applied),
    ],
    &[(b"a", b"w"), (b"b\x01", b"y"), (b"c", b""), (b"d", b"z")],
);

/// The row 7 is put, with 5 in a.
const ROW: &[u8] = b"\x01\
\0\0\0\0\0\0\0\0\
\0\0\0\0\0\0\0\0\
\0\0\0\0\0\0\0\x02\
\0\0\0\0\0\0\0\x12R\0\0\0\x01\x02\x80\0\0\0\0\0\0\x07\0\0\0\0\x01\0\0\0\0\0\0\0\0\
\0\0\0\0\0\0\0\x12R\0\0\0\x01\x02\x80\0\0\0\0\0\0\x07\0\0\0\x01\x01\0\0\0\0\0\0\0\x09\x02\x80\0\0\0\0\0\0\x05";

const MADE: Story = (
    &[
        (TXN, Answer::Refused(b"\0\0\0\0\0\0\0\0\x01")),
        (OPEN, Answer::Applied),
        (OPEN, Answer::Refused(b"\0\0\0\0\0\0\0\0\x01")),
        (TXN, Answer::Refused(EXISTS)),
        (ROW, Answer::Applied),
        (TXN, Answer::Applied),
        (ROW, Answer::Applied),
        (TXN, Answer::Refused(b"\x03m")),
        (CLOSE, Answer::Refused(b"\0\0\0\0\0\0\0\0\x02")),
        (PIECE, Answer::Refused(b"\x01\0\0\0\0\0\0\0\x02")),
    ],
    &[
        (b"\0\0\0\0\0\0\0\0\x01", VERSION),
        (b"\x03m", b"\x01"),
        (EXISTS, b""),
        (COLUMN, FIVE),
    ],
);

fn is_answer(answer: &Result<(), ApplyFault>, wanted: Answer) -> bool {
    match (answer, wanted) {
        (Ok(()), Answer::Applied) => true,
        (Err(ApplyFault::BadDraft(why)), Answer::Bad(wanted)) => *why == wanted,
        (Err(ApplyFault::Refused { key }), Answer::Refused(wanted)) => key.as_slice() == wanted,
        _ => false,
    }
}

/// Whether this comes of a draft. One that found no memory leaves the store as it was, and is handed
/// in once more.
fn comes(alloc: Global, store: &mut MemoryStore, draft: &[u8], wanted: Answer) -> bool {
    let before = store.len();
    let answer = store.apply(alloc, draft);
    if let Err(ApplyFault::Memory) = &answer {
        return store.len() == before && is_answer(&store.apply(alloc, draft), wanted);
    }
    is_answer(&answer, wanted)
}

fn has_pairs(store: &MemoryStore, pairs: &[(&[u8], &[u8])]) -> bool {
    let mut walk = store.walk();
    for (key, value) in pairs {
        match walk.next() {
            Some((found, there)) if found == *key && there == *value => (),
            _ => return false,
        }
    }
    walk.next().is_none()
}

/// The first draft of which something else comes, or the number of drafts if the pairs are others.
fn first_other(alloc: Global, story: &Story) -> Option<usize> {
    let (drafts, pairs) = story;
    let mut store = MemoryStore::new(alloc);
    for (at, (draft, wanted)) in drafts.iter().enumerate() {
        if !comes(alloc, &mut store, draft, *wanted) {
            return Some(at);
        }
    }
    if has_pairs(&store, pairs) {
        None
    } else {
        Some(drafts.len())
    }
}

#[test]
fn under_refusal_drafts_are_applied_or_refused(rt: HostRuntime) {
    assert!(rt; rt.println("from here on").is_ok());
    assert_eq!(rt; first_other(rt.alloc(), &LETTERS), None);
    assert_eq!(rt; first_other(rt.alloc(), &MADE), None);
}
