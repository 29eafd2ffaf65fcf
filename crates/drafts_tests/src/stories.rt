//! Changes of an index beside servers that write, with no clock and no lease.

use crate::acts::{Act, comes, opened};
use crate::fixtures::{Change, mark};
use crate::server::{Outcome, Servers};
use Act::{Begin, Close, Divide, HandIn, Insert, Keep, Move, Publish, Read};
use Change::{Enter, Go, Turn};
use Outcome::{Applied, Conflict, Kept, Refused};
use schema_version::ElementState::{Absent, DeleteOnly, Public, WriteOnly};
use std::alloc::Global;

/// Acts in turn, and how many control records and pairs there are then.
type Story = (&'static [(Act, Outcome)], (usize, usize));

/// A server that has version 1 writes until the step after the next one closes it.
const VERSIONS: Story = (
    &[
        (Insert(1, 1, None), Applied),
        (Keep(1, 9, None), Kept),
        (Publish(0, Enter), Applied),
        (Publish(0, Enter), Conflict),
        (Insert(1, 2, None), Applied),
        (Publish(1, Go(WriteOnly)), Applied),
        (Insert(1, 3, None), Conflict),
        (HandIn, Conflict),
        (Insert(2, 3, None), Applied),
        (Insert(3, 3, None), Refused),
        (Begin(2), Conflict),
        (Close(2), Applied),
        (Close(1), Refused),
        (Insert(2, 4, None), Conflict),
    ],
    // version 3; three rows
    (1, 6),
);

/// The index is filled beside a server that writes.
const FILL: Story = (
    &[
        (Publish(2, Go(Public)), Refused),
        (Begin(2), Applied),
        (Begin(2), Conflict),
        (Insert(3, 4, None), Applied),
        (Publish(2, Go(Public)), Conflict),
        (Read(0, 10), Kept),
        (Insert(3, 5, None), Applied),
        (Move, Conflict),
        (Read(0, 2), Kept),
        (Move, Applied),
        (Move, Conflict),
        (Publish(2, Go(Public)), Conflict),
        (Read(0, 10), Kept),
        (Move, Applied),
        (Publish(2, Go(Public)), Applied),
        (Insert(3, 6, None), Applied),
        (Begin(3), Refused),
    ],
    // versions 3 and 4; six rows with three pairs each
    (2, 18),
);

/// A transaction with a mark is applied once.
const MARKS: Story = (
    &[
        (Insert(1, 1, Some(b"one")), Applied),
        (Keep(1, 2, Some(b"two")), Kept),
        (HandIn, Applied),
        (HandIn, Conflict),
        (Insert(1, 3, Some(b"two")), Conflict),
        (Insert(1, 3, Some(b"")), Applied),
        (Insert(1, 3, Some(b"three")), Refused),
        (Insert(1, 4, Some(b"")), Conflict),
    ],
    // version 1 and three marks; three rows
    (4, 6),
);

const ROW_2: &[u8] = b"\x52\0\0\0\x01\x02\x80\0\0\0\0\0\0\x02\0\0\0\0";

const ROW_7: &[u8] = b"\x52\0\0\0\x01\x02\x80\0\0\0\0\0\0\x07\0\0\0\0";

/// Pieces at given keys, of which row 7 is not there.
const PIECES: Story = (
    &[
        (Insert(1, 1, None), Applied),
        (Insert(1, 3, None), Applied),
        (Publish(0, Enter), Applied),
        (Publish(1, Go(WriteOnly)), Applied),
        (Divide(2, &[ROW_2, ROW_7]), Conflict),
        (Close(2), Applied),
        (Divide(2, &[ROW_7, ROW_2]), Refused),
        (Divide(2, &[ROW_2, ROW_7]), Applied),
        (Divide(2, &[]), Conflict),
        (Read(1, 10), Kept),
        (Insert(3, 8, None), Applied),
        (Move, Applied),
        (Read(1, 10), Refused),
        (Read(2, 10), Kept),
        (Insert(3, 7, None), Applied),
        (Move, Conflict),
        (Read(2, 10), Kept),
        (Move, Applied),
        (Publish(2, Go(Public)), Conflict),
        (Read(0, 10), Kept),
        (Move, Applied),
        (Publish(2, Go(Public)), Applied),
    ],
    // versions 3 and 4; rows 1, 3, 7 and 8
    (2, 12),
);

/// The index turns back in the midst of its fill, and is cleared.
const TURN: Story = (
    &[
        (Insert(1, 1, None), Applied),
        (Insert(1, 2, None), Applied),
        (Publish(0, Enter), Applied),
        (Publish(1, Go(WriteOnly)), Applied),
        (Close(2), Applied),
        (Begin(2), Applied),
        (Read(0, 1), Kept),
        (Move, Applied),
        (Read(0, 1), Kept),
        (Publish(2, Turn), Applied),
        (Move, Conflict),
        (Publish(3, Go(DeleteOnly)), Applied),
        (Close(4), Applied),
        (Divide(4, &[ROW_2]), Refused),
        (Begin(4), Applied),
        (Publish(4, Go(Absent)), Conflict),
        (Read(0, 10), Kept),
        (Move, Applied),
        (Publish(4, Go(Absent)), Applied),
        (Insert(5, 3, None), Applied),
    ],
    // versions 5 and 6; three rows
    (2, 6),
);

/// The first act of which something else comes, or the number of acts if the counts are others.
fn first_other(alloc: Global, servers: &mut Servers, story: &Story) -> Option<usize> {
    let (acts, counts) = story;
    for (at, (act, outcome)) in acts.iter().enumerate() {
        if !comes(alloc, servers, *act, *outcome) {
            return Some(at);
        }
    }
    if servers.store.counts() == *counts {
        None
    } else {
        Some(acts.len())
    }
}

/// The same of stories that go on one store.
fn first_of(alloc: Global, stories: &[Story]) -> Option<usize> {
    let Ok(mut servers) = opened(alloc) else {
        return Some(0);
    };
    for story in stories {
        let other = first_other(alloc, &mut servers, story);
        if other.is_some() {
            return other;
        }
    }
    None
}

#[test]
fn under_refusal_an_index_enters(rt: HostRuntime) {
    assert!(rt; mark(&rt));
    assert_eq!(rt; first_of(rt.alloc(), &[VERSIONS, FILL]), None);
}

#[test]
fn under_refusal_a_mark_is_put_once(rt: HostRuntime) {
    assert!(rt; mark(&rt));
    assert_eq!(rt; first_of(rt.alloc(), &[MARKS]), None);
}

#[test]
fn under_refusal_pieces_begin_at_given_keys(rt: HostRuntime) {
    assert!(rt; mark(&rt));
    assert_eq!(rt; first_of(rt.alloc(), &[PIECES]), None);
}

#[test]
fn under_refusal_an_index_turns_back(rt: HostRuntime) {
    assert!(rt; mark(&rt));
    assert_eq!(rt; first_of(rt.alloc(), &[TURN]), None);
}
