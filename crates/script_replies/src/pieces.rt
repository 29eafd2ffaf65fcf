//! Pieces of a reorganisation.
ghost use Rattle.std.specs.Prelude.{◌≡◌, ◌++◌, IfOk, OnOk, cond, codes, string_bytes};
ghost use Rattle.script_replies.specs.Pieces.{view_name, read_name, piece_name, piece_text};
ghost use Rattle.script_replies.specs.Texts.{line, refused};

use crate::numbers::push_number;
use piece_work::world::{PieceDone, PieceFault, ReadFault};
use reorganise::ViewFault;
use script_grammar::push_hex;
use std::alloc::{AllocError, Global};

fn push_view(out: &mut String, fault: ViewFault) -> Result<(), AllocError>
    ensures { OnOk result (string_bytes out.new ≡ string_bytes out.old ++ view_name fault) }
{
    match fault {
        ViewFault::BadPiece => out.push_str("BadPiece"),
        ViewFault::Spent => out.push_str("Spent"),
        ViewFault::BadLimit => out.push_str("BadLimit"),
        ViewFault::Memory => out.push_str("Memory"),
    }
}

/// Adds why a piece can't be read.
pub(crate) fn push_read(out: &mut String, fault: ReadFault) -> Result<(), AllocError>
    ensures { OnOk result (string_bytes out.new ≡ string_bytes out.old ++ read_name fault) }
{
    match fault {
        ReadFault::NotWanted => out.push_str("NotWanted"),
        ReadFault::View(fault) => push_view(out, fault),
    }
}

/// Adds why a piece was not committed.
pub(crate) fn push_piece(out: &mut String, fault: &PieceFault) -> Result<(), AllocError>
    ensures { OnOk result (string_bytes out.new ≡ string_bytes out.old ++ piece_name fault.now) }
{
    match fault {
        PieceFault::MomentTooLarge => out.push_str("MomentTooLarge"),
        PieceFault::NotWanted => out.push_str("NotWanted"),
        PieceFault::WrongElement => out.push_str("WrongElement"),
        PieceFault::Moved { cursor } => {
            out.push_str("Moved ")?;
            push_hex(out, cursor.as_slice())
        }
        PieceFault::Conflict { key } => {
            out.push_str("Conflict ")?;
            push_hex(out, key.as_slice())
        }
        PieceFault::Memory => out.push_str("Memory"),
    }
}

fn ended_word(ended: bool) -> &'static str
    ensures { result.now ≡ cond ended (codes " done") (codes " more") }
{
    if ended { " done" } else { " more" }
}

/// The reply to a piece that can't be read: `refused Spent`.
///
/// - `fault`: why it can't be.
pub fn unread_line(alloc: Global, fault: ReadFault) -> Result<String, AllocError>
    ensures { IfOk result (λ text. string_bytes text ≡ line (refused (read_name fault))) }
{
    let mut text = String::new(alloc);
    text.push_str("refused ")?;
    push_read(&mut text, fault)?;
    text.push_str("\n")?;
    Ok(text)
}

/// The reply to a piece that was committed: `ok piece PLACE done` if it has come to its end, else
/// `ok piece PLACE more`.
///
/// - `done`: the receipt for the piece's entry, and whether the piece has ended.
pub fn pieced_line(alloc: Global, done: &PieceDone) -> Result<String, AllocError>
    ensures { IfOk result (λ text. string_bytes text ≡ line (piece_text done.now)) }
{
    let mut text = String::new(alloc);
    text.push_str("ok piece ")?;
    push_number(&mut text, done.receipt.place)?;
    text.push_str(ended_word(done.ended))?;
    text.push_str("\n")?;
    Ok(text)
}

/// The reply to a piece that was not committed: `refused Moved CURSOR`.
///
/// - `fault`: why it was not.
pub fn unpieced_line(alloc: Global, fault: &PieceFault) -> Result<String, AllocError>
    ensures { IfOk result (λ text. string_bytes text ≡ line (refused (piece_name fault.now))) }
{
    let mut text = String::new(alloc);
    text.push_str("refused ")?;
    push_piece(&mut text, fault)?;
    text.push_str("\n")?;
    Ok(text)
}
