//! What the prompt answers a program: the JSON of an answer, and the lines that ask for a page of
//! rows. What is due was written by hand.

use script_json::{Details, answer_text};
use script_rows::read_rows_line;
use std::alloc::Global;

// A reply, its remarks, the column of a mistake, facts and changes in JSON, and the line for them.
const ANSWERS: [(&str, &str, Option<usize>, [Option<&str>; 2], &str); 7] = [
    (
        "",
        "",
        None,
        [None, None],
        "{\"reply\":[],\"remarks\":[]}\n",
    ),
    (
        "ok\n",
        "",
        None,
        [None, None],
        "{\"reply\":[\"ok\"],\"remarks\":[]}\n",
    ),
    (
        "bad line\n",
        "1: expected a command",
        Some(1),
        [None, None],
        "{\"reply\":[\"bad line\"],\"remarks\":[\"1: expected a command\"],\"column\":1}\n",
    ),
    (
        "refused StillUsed 30\n",
        "two\nlines\n",
        None,
        [None, None],
        "{\"reply\":[\"refused StillUsed 30\"],\"remarks\":[\"two\",\"lines\"],\
         \"refused\":{\"name\":\"StillUsed\",\"values\":[30]}}\n",
    ),
    (
        "refused Conflict 52ab\n",
        "",
        None,
        [None, None],
        "{\"reply\":[\"refused Conflict 52ab\"],\"remarks\":[],\
         \"refused\":{\"name\":\"Conflict\",\"values\":[\"52ab\"]}}\n",
    ),
    (
        "row (1) a = '\"'\nok rows 1\n",
        "",
        None,
        [Some("{\"rows\":[]}"), None],
        "{\"reply\":[\"row (1) a = '\\\"'\",\"ok rows 1\"],\"remarks\":[],\
         \"facts\":{\"rows\":[]}}\n",
    ),
    (
        "ok\n",
        "",
        None,
        [None, Some("null")],
        "{\"reply\":[\"ok\"],\"remarks\":[],\"changes\":null}\n",
    ),
];

// A text of its own, if there is one and memory for it.
fn own(alloc: Global, text: Option<&str>) -> Option<String> {
    text?.to_string(alloc).ok()
}

// Whether an answer is this line.
fn is_answer(
    alloc: Global,
    texts: (&str, &str),
    column: Option<usize>,
    data: [Option<&str>; 2],
    due: &str,
) -> bool {
    let [facts, changes] = data;
    let details = Details {
        column,
        facts: own(alloc, facts),
        changes: own(alloc, changes),
    };
    let Ok(line) = answer_text(alloc, texts.0, texts.1, &details) else {
        return false;
    };
    line.as_str() == due
}

#[test]
fn answers(rt: HostRuntime) {
    for (reply, remark, column, data, due) in ANSWERS {
        assert!(rt;
            is_answer(rt.alloc(), (reply, remark), column, data, due),
            "{due}"
        );
    }
}

// A line, and if it asks for rows, how many values the key has from which they begin, and how many
// rows it asks for.
const LINES: [(&str, Option<(usize, usize)>); 7] = [
    ("rows people limit 50", Some((0, 50))),
    ("rows people from (1, 'a') limit 1", Some((2, 1))),
    ("rows people limit 1000", Some((0, 1000))),
    ("rows people limit 1001", None),
    ("rows people limit 0", None),
    ("rows people", None),
    ("rows people from () limit 1", None),
];

// What a line asks for; `None` is out of memory.
fn asked(alloc: Global, line: &str) -> Option<Option<(usize, usize)>> {
    match read_rows_line(alloc, line.as_bytes()).ok()? {
        Some(asked) => Some(Some((asked.from.len(), asked.limit))),
        None => Some(None),
    }
}

#[test]
fn lines_that_ask_for_rows(rt: HostRuntime) {
    for (line, due) in LINES {
        assert!(rt; asked(rt.alloc(), line) == Some(due), "{line}");
    }
}
