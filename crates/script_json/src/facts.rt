//! The facts behind the views of an opened world.
use crate::describe::tables_value;
use crate::history::timeline_value;
use crate::leases::leases_value;
use crate::pieces::progress_value;
use crate::rows::rows_value;
use keycode::Text;
use script_progress::script_session::{Opened, Session};
use serde_json::Value;
use std::alloc::{AllocError, Global};

fn opened_facts(
    alloc: Global,
    opened: &Opened,
    gone: &[(u32, Text)],
    line: &str,
) -> Result<Option<Value>, AllocError> {
    let (command, rest) = line.split_once(' ').unwrap_or((line, ""));
    match (command, rest.trim()) {
        ("describe", table) => Ok(Some(tables_value(alloc, &opened.world, table)?)),
        ("leases", "") => Ok(Some(leases_value(alloc, opened)?)),
        ("progress", "") => Ok(Some(progress_value(alloc, &opened.world)?)),
        ("rows", _) => rows_value(alloc, opened, line),
        ("timeline", "") => Ok(Some(timeline_value(alloc, opened, gone)?)),
        _ => Ok(None),
    }
}

/// The facts that a line of the prompt's own shows, in JSON: of `describe`, `leases`, `progress`, `rows`
/// and `timeline`, once a world is open; `None` of any other line. Refused only when out of memory.
///
/// - `session`: the session, which is only read.
/// - `gone`: names of elements that have left, by their numbers.
/// - `line`: the line without its ending; white space around it does not matter.
pub fn facts_of(
    alloc: Global,
    session: &Session,
    gone: &[(u32, Text)],
    line: &str,
) -> Result<Option<String>, AllocError> {
    let Session::Running(opened) = session else {
        return Ok(None);
    };
    match opened_facts(alloc, opened, gone, line.trim())? {
        Some(facts) => Ok(Some(facts.to_string(alloc)?)),
        None => Ok(None),
    }
}
