//! The line `try LINE`, which says what is wrong with LINE and does not run it.
use crate::carry::carry_of;
use crate::log_cut::is_cut;
use crate::moment::{first_word, given_line, is_foreign, is_quit, is_view};
use crate::save::is_save;
use crate::undo::is_undo;
use script_hints::{bad_column, mistake_in, view_of};
use script_json::script_session::Session;
use std::alloc::{AllocError, Global};

/// The line that is to be tried: what follows the first word and white space, if that is `try`.
///
/// - `line`: the line without its ending; white space around it does not matter.
pub(crate) fn tried(line: &str) -> Option<&str> {
    let line = line.trim();
    if first_word(line) != "try" {
        return None;
    }
    match line.split_once(' ') {
        Some((_, tried)) => Some(tried.trim_start()),
        None => Some(""),
    }
}

// Whether a line carries changes on; before `open` none does.
fn carries_on(alloc: Global, session: &Session, line: &str) -> Result<bool, AllocError> {
    match session {
        Session::Declaring(_) => Ok(false),
        Session::Running(_) => Ok(carry_of(alloc, line.as_bytes())?.is_some()),
    }
}

// Whether a line shows a view, or tries another one.
fn shows(alloc: Global, session: &Session, line: &str) -> Result<bool, AllocError> {
    if tried(line).is_some() {
        return Ok(true);
    }
    if !is_view(line) {
        return Ok(false);
    }
    Ok(view_of(alloc, session, &[], line, false)?.is_some())
}

// Whether a line that no script has is one of the prompt's own.
fn is_own(alloc: Global, session: &Session, line: &str) -> Result<bool, AllocError> {
    let bytes = line.as_bytes();
    if is_save(line) || is_quit(alloc, bytes)? || is_undo(alloc, bytes)? || is_cut(alloc, bytes)? {
        return Ok(true);
    }
    if carries_on(alloc, session, line)? {
        return Ok(true);
    }
    shows(alloc, session, line)
}

// What is wrong with a line that is none of the prompt's own.
fn mistake_text(alloc: Global, session: &Session, line: &str) -> Result<String, AllocError> {
    let given = given_line(alloc, session, line)?;
    let mistake = mistake_in(alloc, session, given.as_str())?;
    if mistake.is_empty() {
        return "nothing is wrong with the form of this line".to_string(alloc);
    }
    Ok(mistake)
}

/// What is wrong with a line: the hint that it would get as a bad line, or that nothing is, or that it
/// is a line of the prompt; the form of `try` if there is no line. Refused only when out of memory.
///
/// - `session`: the session, which is only read.
/// - `line`: the line that is tried, without its ending.
pub(crate) fn try_text(alloc: Global, session: &Session, line: &str) -> Result<String, AllocError> {
    if line.is_empty() {
        return "try LINE says what is wrong with LINE, as in `try lease a`".to_string(alloc);
    }
    if is_foreign(alloc, line.as_bytes())? && is_own(alloc, session, line)? {
        return "this is a line of the prompt".to_string(alloc);
    }
    mistake_text(alloc, session, line)
}

/// The column of what is wrong with a line that is tried, in its own characters from 1; `None` if
/// nothing is, or it has no such place. Refused only when out of memory.
///
/// - `session`: the session, which is only read.
/// - `line`: the line that is tried, without its ending.
pub(crate) fn try_column(
    alloc: Global,
    session: &Session,
    line: &str,
) -> Result<Option<usize>, AllocError> {
    if is_foreign(alloc, line.as_bytes())? && is_own(alloc, session, line)? {
        return Ok(None);
    }
    let given = given_line(alloc, session, line)?;
    if mistake_in(alloc, session, given.as_str())?.is_empty() {
        return Ok(None);
    }
    bad_column(alloc, session, given.as_str())
}
