//! The moment that a line of a script names, and whether it is too far for a world.
ghost use Rattle.std.specs.Prelude.{◌≡◌, IfOk};
ghost use Rattle.handles.specs.Moments.{command_moment, line_moment, is_named_too_far, is_line_too_far};

use script_grammar::{Command, read_command};
use script_tokens::LineFault;
use std::alloc::{AllocError, Global};
use typed_calls::{ANY_JUMP, BoundedWorld};

// The longest line, in bytes.
const MAX_LINE: usize = 65_536;

// The moment of a command that is made at one.
fn command_moment(command: &Command) -> Option<u64>
    ensures { result ≡ command_moment command.now }
{
    match command {
        Command::Lease { moment, .. }
        | Command::Txn { moment, .. }
        | Command::Commit { moment, .. }
        | Command::Query { moment, .. }
        | Command::Publish { moment, .. }
        | Command::Next { moment }
        | Command::Reorganise { moment, .. }
        | Command::Work { moment, .. } => Some(*moment),
        _ => None,
    }
}

// The moment that a line names; one that is too long is no command, whatever it holds.
fn line_moment(alloc: Global, line: &[u8]) -> Result<Option<u64>, AllocError>
    ensures { IfOk result (λ moment. moment ≡ line_moment line.now) }
{
    if line.len() > MAX_LINE {
        return Ok(None);
    }
    match read_command(alloc, line) {
        Ok(command) => Ok(command_moment(&command)),
        Err(LineFault::Malformed) => Ok(None),
        Err(LineFault::Memory) => Err(AllocError),
    }
}

// Whether the moment, if there is one, is too far.
fn is_named_too_far(bounded: &BoundedWorld, moment: Option<u64>) -> bool
    ensures { result ≡ is_named_too_far bounded.now moment }
{
    match moment {
        Some(moment) => bounded.is_too_far(moment),
        None => false,
    }
}

/// Whether a line names a moment that is too far. It reads no line of a world in which none is.
pub(crate) fn is_line_too_far(
    alloc: Global,
    bounded: &BoundedWorld,
    line: &[u8],
) -> Result<bool, AllocError>
    ensures { IfOk result (λ far. far ≡ is_line_too_far bounded.now line.now) }
{
    if bounded.furthest == ANY_JUMP {
        return Ok(false);
    }
    let moment = line_moment(alloc, line)?;
    Ok(is_named_too_far(bounded, moment))
}
