//! Pieces of a reorganisation that are read and prepared in one line and committed in another.
ghost use Rattle.std.specs.Prelude.{◌≡◌, IfOk, string_bytes};
ghost use Rattle.script_grammar.specs.declared.command.Command.TheVariants as command;
ghost use Rattle.script_replies.specs.Texts.{line};
ghost use Rattle.script_session.specs.Pieces.{ReadsPiece, read_text};
ghost use Rattle.script_session.specs.declared.session.Session.TheVariants.{Running};
ghost use Rattle.script_session.specs.Answer.{Answers, piece_kept};

use crate::pending::keep;
use crate::session::{Answer, Opened, Pending, reply};
use keycode::Text;
use reorganise::{PreparedPiece, prepare_piece};
use script_grammar::ElementName;
use script_names::element_of;
use script_replies::unread_line;
use script_replies::world::{ReadFault, World};
use std::alloc::{AllocError, Global};

/// What reading and preparing a piece came to.
#[derive(Drop)]
pub(crate) enum PieceRead {
    /// It is prepared.
    Ready(PreparedPiece),
    /// It can't be read.
    Unread(ReadFault),
    /// Memory ran out before it was prepared.
    OutOfMemory,
}

// Reads a piece as it stands, and prepares it.
fn read_for(alloc: Global, world: &World, element: u32, piece: u32, limit: u32) -> PieceRead
    ensures { ReadsPiece world.now element piece limit result }
{
    match world.read_piece(alloc, element, piece, limit) {
        Ok(view) => match prepare_piece(alloc, view) {
            Ok(prepared) => PieceRead::Ready(prepared),
            Err(_) => PieceRead::OutOfMemory,
        },
        Err(fault) => PieceRead::Unread(fault),
    }
}

fn read_line(alloc: Global, how: &PieceRead) -> Result<String, AllocError>
    ensures { IfOk result (λ text. string_bytes text ≡ line (read_text how.now)) }
{
    match how {
        PieceRead::Ready(_) => "ok prepared\n".to_string(alloc),
        PieceRead::Unread(fault) => unread_line(alloc, *fault),
        PieceRead::OutOfMemory => "refused Memory\n".to_string(alloc),
    }
}

// What could be prepared is kept under its name.
fn keep_read(opened: &mut Opened, name: Text, how: PieceRead) -> Result<(), AllocError>
    ensures { IfOk result (λ done. opened.new ≡ piece_kept opened.old name how) }
{
    match how {
        PieceRead::Ready(prepared) => keep(opened, name, Pending::Piece(prepared)),
        PieceRead::Unread(_) | PieceRead::OutOfMemory => Ok(()),
    }
}

/// `piece`: what could be prepared is kept under its name, in place of what was there; else what
/// was there stays.
pub(crate) fn piece(
    alloc: Global,
    opened: &mut Opened,
    name: Text,
    element: &ElementName,
    piece: u32,
    limit: u32,
) -> Result<Answer, AllocError>
    ensures { IfOk result (λ a. Answers opened.old (command.Piece name element.now piece limit) (string_bytes a.text) a.is_bad (Running opened.new)) }
{
    let number = element_of(opened.world.newest().get(), element);
    let how = read_for(alloc, &opened.world, number, piece, limit);
    let answer = reply(read_line(alloc, &how)?);
    keep_read(opened, name, how)?;
    Ok(answer)
}
