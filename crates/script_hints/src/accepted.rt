//! What there is to know of a line that is accepted.
use script_grammar::{Command, NamedChange, NamedMove, New, read_command};
use script_progress::script_session::Opened;
use std::alloc::{AllocError, Global};

/// What a column of the name `key` is told.
pub(crate) const KEY_COLUMN: &str =
    "no condition can name a column key: there `key = (..)` is the primary key";

/// Begins a line for one more remark. Refused only when out of memory.
///
/// - `out`: the remarks so far.
pub(crate) fn begin(out: &mut String) -> Result<(), AllocError> {
    if out.is_empty() {
        Ok(())
    } else {
        out.push_str("\n")
    }
}

fn moment_of(command: &Command) -> Option<u64> {
    match command {
        Command::Lease { moment, .. }
        | Command::Txn { moment, .. }
        | Command::Query { moment, .. }
        | Command::Commit { moment, .. }
        | Command::Publish { moment, .. }
        | Command::Next { moment }
        | Command::Reorganise { moment, .. }
        | Command::Work { moment, .. } => Some(*moment),
        _ => None,
    }
}

fn is_key_column(fresh: &New) -> bool {
    match fresh {
        New::Column { name, .. } => name.as_str() == "key",
        New::Index { .. } => false,
    }
}

// Whether a plan or a step adds a column of the name `key`.
fn adds_key_column(command: &Command) -> bool {
    match command {
        Command::Plan { changes } => changes.as_slice().iter().any(|change| match change {
            NamedChange::Add(fresh) => is_key_column(fresh),
            _ => false,
        }),
        Command::Publish { moves, .. } => moves.as_slice().iter().any(|named| match named {
            NamedMove::Enter { fresh, .. } => is_key_column(fresh),
            _ => false,
        }),
        _ => false,
    }
}

fn push_of(out: &mut String, opened: &Opened, command: &Command) -> Result<(), AllocError> {
    if adds_key_column(command) {
        begin(out)?;
        out.push_str(KEY_COLUMN)?;
    }
    let now = opened.world.moment();
    match moment_of(command) {
        Some(moment) if moment < now => {
            begin(out)?;
            write!(out, "moments never fall: {moment} counts as {now}")
        }
        _ => Ok(()),
    }
}

/// Adds what there is to know of a line that is accepted: that it adds a column that no condition can
/// name, and that its moment was passed. Refused only when out of memory.
///
/// - `out`: the remarks so far.
/// - `opened`: the world after the line.
/// - `line`: the line without its ending.
pub(crate) fn push_accepted(
    alloc: Global,
    out: &mut String,
    opened: &Opened,
    line: &str,
) -> Result<(), AllocError> {
    if !line.contains(" at ") && !line.contains(" key ") {
        return Ok(());
    }
    let read = read_command(alloc, line.as_bytes());
    let pushed = match &read {
        Ok(command) => push_of(out, opened, command),
        Err(_) => Ok(()),
    };
    drop(read);
    pushed
}
