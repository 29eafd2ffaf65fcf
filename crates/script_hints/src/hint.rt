//! The hint that goes with a reply.

use crate::accepted::push_accepted;
use crate::declared::declared_hint;
use crate::in_way::left_out;
use crate::refused::{opening_hint, refusal_hint, refusal_of};
use crate::rows::row_hint;
use script_grammar::{Command, is_silent, read_command};
use script_mistakes::{column_of, unexpected};
use script_progress::script_session::{Declarations, Session};
use script_progress::script_views::push_nearest;
use script_tokens::LineFault;
use std::alloc::{AllocError, Global};

/// The longest line, in bytes.
const MAX_LINE: usize = 65_536;

/// What a line that comes after `open` is told before it.
pub(crate) const NOT_OPEN: &str = "nothing is open yet: declare tables, then `open`";

// Why an `index` line before `open` is bad: its table is not declared.
fn undeclared(alloc: Global, declared: &Declarations, table: &str) -> Result<String, AllocError> {
    let mut names = Vec::new(alloc);
    for definition in declared.tables.as_slice() {
        names.push(definition.name.as_str())?;
    }
    let mut out = format!(in alloc; "table {table} is not declared")?;
    push_nearest(alloc, &mut out, table, names.as_slice())?;
    Ok(out)
}

// Why a line that is a command is bad: it is on the wrong side of `open`.
fn misplaced(alloc: Global, session: &Session, command: &Command) -> Result<String, AllocError> {
    match (session, command) {
        (Session::Declaring(declared), Command::Index { table, .. }) => {
            undeclared(alloc, declared, table.as_str())
        }
        (Session::Declaring(_), _) => NOT_OPEN.to_string(alloc),
        (Session::Running(_), _) => "1: this line comes before open".to_string(alloc),
    }
}

// Whether a command names no table, before `open`, that is not declared.
fn is_declared(declared: &Declarations, command: &Command) -> bool {
    match command {
        Command::Index { table, .. } => declared
            .tables
            .as_slice()
            .iter()
            .any(|definition| definition.name.as_str() == table.as_str()),
        _ => true,
    }
}

// Whether a command is on its side of `open`, and if it is an `index` line, of a declared table.
fn is_in_place(session: &Session, command: &Command) -> bool {
    let is_declaration = matches!(
        command,
        Command::Length(_) | Command::Table { .. } | Command::Index { .. } | Command::Open
    );
    match session {
        Session::Declaring(declared) => is_declaration && is_declared(declared, command),
        Session::Running(_) => !is_declaration,
    }
}

// Whether a line is a command that may come now.
fn is_good(alloc: Global, session: &Session, line: &str) -> Result<bool, AllocError> {
    let read = read_command(alloc, line.as_bytes());
    let is_good = match &read {
        Ok(command) => Ok(is_in_place(session, command)),
        Err(LineFault::Malformed) => Ok(false),
        Err(LineFault::Memory) => Err(AllocError),
    };
    drop(read);
    is_good
}

fn bad_hint(
    alloc: Global,
    session: &Session,
    line: &str,
    may_omit: bool,
) -> Result<String, AllocError> {
    if line.len() > MAX_LINE {
        return "the line is longer than 65,536 bytes".to_string(alloc);
    }
    let read = read_command(alloc, line.as_bytes());
    let hint = match &read {
        Ok(command) => misplaced(alloc, session, command),
        Err(_) => unexpected(alloc, line, may_omit),
    };
    drop(read);
    hint
}

fn refused_hint(
    alloc: Global,
    session: &Session,
    line: &str,
    reply: &str,
) -> Result<String, AllocError> {
    let refusal = refusal_of(reply);
    let read = read_command(alloc, line.as_bytes());
    let hint = match (session, &read) {
        (Session::Running(opened), Ok(command)) => refusal_hint(alloc, opened, command, refusal),
        (Session::Declaring(_), Ok(_)) => opening_hint(alloc, refusal.name),
        _ => Ok(String::new(alloc)),
    };
    drop(read);
    hint
}

// What an accepted plan leaves unfinished.
fn left_hint(alloc: Global, session: &Session) -> Result<String, AllocError> {
    match session {
        Session::Running(opened) => left_out(alloc, opened),
        Session::Declaring(_) => Ok(String::new(alloc)),
    }
}

// What goes with a line that is answered `ok`: what is wrong with a declaration, or which row an
// operation is refused for.
fn answered_hint(
    alloc: Global,
    session: &Session,
    line: &str,
    reply: &str,
) -> Result<String, AllocError> {
    let read = read_command(alloc, line.as_bytes());
    let hint = match (session, &read) {
        (Session::Declaring(declared), Ok(command)) => declared_hint(alloc, declared, command),
        (Session::Running(_), Ok(command)) => row_hint(alloc, command, reply),
        _ => Ok(String::new(alloc)),
    };
    drop(read);
    hint
}

// What goes with a line that is not refused, by its reply alone.
fn replied_hint(
    alloc: Global,
    session: &Session,
    line: &str,
    reply: &str,
) -> Result<String, AllocError> {
    if reply.contains("ok plan ") {
        left_hint(alloc, session)
    } else if reply == "ok\n" || reply.starts_with("ok refused ") {
        answered_hint(alloc, session, line, reply)
    } else {
        Ok(String::new(alloc))
    }
}

fn accepted_hint(
    alloc: Global,
    session: &Session,
    line: &str,
    reply: &str,
) -> Result<String, AllocError> {
    let mut out = replied_hint(alloc, session, line, reply)?;
    if let Session::Running(opened) = session {
        push_accepted(alloc, &mut out, opened, line)?;
    }
    Ok(out)
}

/// The hint that goes with a reply: where a bad line stops being a command and what was expected
/// there, what a refusal means and what may be done, which row an operation is refused for, what
/// `open` will refuse of a declaration, what an accepted plan leaves unfinished, that a column is
/// named as the key is, or that a moment was passed. Empty for any other reply.
///
/// - `session`: the session after the reply, which is only read.
/// - `line`: the line that was answered, without its ending.
/// - `reply`: the reply.
/// - `may_omit`: whether `at M` may be left out.
///
/// Refused only when out of memory.
pub fn hint_of(
    alloc: Global,
    session: &Session,
    line: &str,
    reply: &str,
    may_omit: bool,
) -> Result<String, AllocError> {
    if reply == "bad line\n" {
        return bad_hint(alloc, session, line, may_omit);
    }
    match reply.strip_prefix("refused ") {
        Some(refusal) => refused_hint(alloc, session, line, refusal.trim_end()),
        None => accepted_hint(alloc, session, line, reply),
    }
}

/// What is wrong with a line that is not given to the session: the hint that it would get as a bad
/// line of a prompt; empty if it is blank, a remark, or a command that may come now. Whether the
/// command would be refused is not said. Refused only when out of memory.
///
/// - `session`: the session, which is only read.
/// - `line`: the line without its ending.
pub fn mistake_in(alloc: Global, session: &Session, line: &str) -> Result<String, AllocError> {
    if is_silent(line.as_bytes()) || is_good(alloc, session, line)? {
        return Ok(String::new(alloc));
    }
    bad_hint(alloc, session, line, true)
}

/// The column of what is wrong with a bad line of a prompt, in characters from 1; `None` if the hint
/// names no column. Refused only when out of memory.
///
/// - `session`: the session, which is only read.
/// - `line`: the line without its ending, which is answered `bad line`.
pub fn bad_column(
    alloc: Global,
    session: &Session,
    line: &str,
) -> Result<Option<usize>, AllocError> {
    if line.len() > MAX_LINE {
        return Ok(None);
    }
    let read = read_command(alloc, line.as_bytes());
    let column = match (session, &read) {
        (Session::Declaring(_), Ok(_)) => Ok(None),
        (Session::Running(_), Ok(_)) => Ok(Some(1)),
        (_, Err(_)) => column_of(alloc, line, true),
    };
    drop(read);
    column
}
