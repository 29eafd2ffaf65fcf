//! Scripts from their bytes to the bytes of their replies, which were worked out by hand.

use crate::failing::{Broken, Limited, Spaces};
use script::{ScriptFault, Summary, run_script, script_status};
use std::alloc::{AllocError, Global};

const FIRST_RUN: &str = "table t (id int key, a int)\n\
    index i on t (a)\n\
    open\n\
    lease s at 0\n\
    txn s at 0: insert t (1) set a = 5\n\
    pairs\n\
    txn s at 0: update t (1) set a = 5\n\
    check\n";

const FIRST_REPLIES: &str = "ok\n\
    ok\n\
    ok version 1\n\
    ok lease 1 0 10\n\
    ok done 2\n\
    520000000102800000000000000100000000\n\
    520000000102800000000000000100000001 = 028000000000000005\n\
    5800000002028000000000000005028000000000000001\n\
    ok pairs 3\n\
    ok done 3\n\
    ok rows 1 missing 0 extra 0\n";

// A script, its replies, how many lines it has, and how many of them are bad.
const SUMMARIES: [(&str, &str, u64, u64); 5] = [
    (FIRST_RUN, FIRST_REPLIES, 8, 0),
    ("", "", 0, 0),
    ("insrt\n", "bad line\n", 1, 1),
    ("# remark\n\nlength 5\ninsrt", "ok\nbad line\n", 4, 1),
    ("length 5\r\nopen\ropen\n", "ok\nbad line\n", 2, 1),
];

// Whether a script gets just these replies, with so many lines and bad lines.
fn answers(alloc: Global, script: &str, replies: &str, summary: Summary) -> bool {
    let mut input = script.as_bytes();
    let mut output = Vec::new(alloc);
    let outcome = run_script(alloc, &mut input, &mut output);
    outcome == Ok(summary) && output.as_slice() == replies.as_bytes()
}

#[test]
fn summaries(rt: HostRuntime) {
    for (script, replies, lines, bad) in SUMMARIES {
        assert!(rt;
            answers(rt.alloc(), script, replies, Summary { lines, bad }),
            "{script}"
        );
    }
}

// What comes of so many spaces, and how many bytes are written.
fn of_spaces(alloc: Global, left: usize) -> (Result<Summary, ScriptFault>, usize) {
    let mut output = Vec::new(alloc);
    let outcome = run_script(alloc, &mut Spaces { left }, &mut output);
    (outcome, output.len())
}

// The longest script is one line that is too long to be good, and of one byte more nothing is
// answered.
#[test]
fn longest_script(rt: HostRuntime) {
    let read = Ok(Summary { lines: 1, bad: 1 });
    assert!(rt; of_spaces(rt.alloc(), 16_777_216) == (read, 9));
    assert!(rt; of_spaces(rt.alloc(), 16_777_217) == (Err(ScriptFault::TooLong), 0));
}

// Whether a script of `length 5` and spaces, so many bytes in all, gets this reply.
fn answers_filled(alloc: Global, bytes: usize, reply: &str) -> Result<bool, AllocError> {
    let mut script = Vec::from_slice(alloc, b"length 5")?;
    script.resize(bytes, b' ')?;
    let mut input = script.as_slice();
    let mut output = Vec::new(alloc);
    let outcome = run_script(alloc, &mut input, &mut output);
    Ok(outcome.is_ok() && output.as_slice() == reply.as_bytes())
}

#[test]
fn longest_line(rt: HostRuntime) {
    for (bytes, reply) in [(65_536, "ok\n"), (65_537, "bad line\n")] {
        assert!(rt;
            answers_filled(rt.alloc(), bytes, reply) == Ok(true),
            "{bytes}"
        );
    }
}

// What comes of an input that fails after a good line or at once, and how many bytes are written.
fn unread(alloc: Global) -> [(Result<Summary, ScriptFault>, usize); 2] {
    let mut no_text: &[u8] = b"length 5\n\xff";
    let mut output = Vec::new(alloc);
    let outcome = run_script(alloc, &mut no_text, &mut output);
    let mut nothing = Vec::new(alloc);
    let failed = run_script(alloc, &mut Broken, &mut nothing);
    [(outcome, output.len()), (failed, nothing.len())]
}

#[test]
fn inputs_that_are_not_read(rt: HostRuntime) {
    let wanted = [(Err(ScriptFault::NotUtf8), 0), (Err(ScriptFault::Read), 0)];
    assert!(rt; unread(rt.alloc()) == wanted);
}

// Whether just so many bytes of the first run's replies go out through a writer that takes no more.
fn is_cut(alloc: Global, room: usize) -> bool {
    let mut input = FIRST_RUN.as_bytes();
    let bytes = Vec::new(alloc);
    let mut output = Limited { bytes, room };
    let outcome = run_script(alloc, &mut input, &mut output);
    let prefix = FIRST_REPLIES.as_bytes().get(..room);
    outcome == Err(ScriptFault::Write) && prefix == Some(output.bytes.as_slice())
}

#[test]
fn writer_that_fails_after_each_count(rt: HostRuntime) {
    for room in 0..FIRST_REPLIES.len() {
        assert!(rt; is_cut(rt.alloc(), room), "{room}");
    }
}

#[test]
fn statuses(rt: HostRuntime) {
    let table = [
        (Ok(Summary { lines: 2, bad: 0 }), 0),
        (Ok(Summary { lines: 2, bad: 2 }), 1),
        (Err(ScriptFault::Read), 3),
        (Err(ScriptFault::TooLong), 3),
        (Err(ScriptFault::NotUtf8), 3),
        (Err(ScriptFault::Write), 4),
        (Err(ScriptFault::Memory), 5),
    ];
    for (outcome, status) in table {
        assert!(rt; script_status(&outcome) == status, "{status}");
    }
}
