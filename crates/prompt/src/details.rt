//! What an answer has in JSON besides its reply and remarks.
use crate::form::Form;
use crate::try_line::{tried, try_column};
use keycode::Text;
use script_hints::bad_column;
use script_json::script_session::{Opened, Session};
use script_json::{Details, PairsBefore, changes_text, facts_of};
use std::alloc::{AllocError, Global};

/// What an answer has in JSON besides its reply and remarks: nothing.
pub(crate) fn no_details() -> Details {
    Details {
        column: None,
        facts: None,
        changes: None,
    }
}

/// What is kept before a line, so that what it changes can be found: nothing but for JSON.
pub(crate) fn pairs_before(session: &Session, form: Form) -> Result<PairsBefore, AllocError> {
    if form.is_json() {
        PairsBefore::new(session)
    } else {
        Ok(PairsBefore::Unasked)
    }
}

// What a line changed in an opened world.
fn changes_in(
    alloc: Global,
    session: &Session,
    pairs: &PairsBefore,
) -> Result<Option<String>, AllocError> {
    match session {
        Session::Declaring(_) => Ok(None),
        Session::Running(opened) => changes_text(alloc, pairs, opened),
    }
}

/// What an answer has in JSON besides the session's reply: where a bad line is wrong, and what the line
/// changed.
pub(crate) fn reply_details(
    alloc: Global,
    session: &Session,
    line: &str,
    is_bad: bool,
    form: Form,
    pairs: &PairsBefore,
) -> Result<Details, AllocError> {
    let mut details = no_details();
    if is_bad && form.is_json() {
        details.column = bad_column(alloc, session, line)?;
    }
    details.changes = changes_in(alloc, session, pairs)?;
    Ok(details)
}

/// What an answer has in JSON besides a view: the facts that it shows, or where a line that is tried is
/// wrong.
pub(crate) fn view_details(
    alloc: Global,
    session: &Session,
    gone: &[(u32, Text)],
    line: &str,
    form: Form,
) -> Result<Details, AllocError> {
    let mut details = no_details();
    if form.is_json() {
        match tried(line) {
            Some(line) => details.column = try_column(alloc, session, line)?,
            None => details.facts = facts_of(alloc, session, gone, line)?,
        }
    }
    Ok(details)
}

/// What an answer has in JSON besides the reply to a line that carries changes on: what it changed.
pub(crate) fn carry_details(
    alloc: Global,
    opened: &Opened,
    pairs: &PairsBefore,
) -> Result<Details, AllocError> {
    let mut details = no_details();
    details.changes = changes_text(alloc, pairs, opened)?;
    Ok(details)
}
