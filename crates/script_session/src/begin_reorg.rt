//! The begin of a reorganisation, and its working off.
ghost use Rattle.std.specs.Prelude.{◌≡◌, IfOk, string_bytes};
ghost use Rattle.script_grammar.specs.declared.command.Command.TheVariants as command;
ghost use Rattle.script_session.specs.declared.session.Session.TheVariants.{Running};
ghost use Rattle.script_session.specs.Answer.{Answers};

use crate::session::{Answer, Opened, reply};
use script_grammar::ElementName;
use script_names::element_of;
use script_replies::piece_work::work_off;
use script_replies::{begun_line, work_word, worked_line};
use std::alloc::{AllocError, Global};

/// `reorganise`: the fill or the clear that an element of the newest version wants begins, in so
/// many pieces.
pub(crate) fn reorganise(
    alloc: Global,
    opened: &mut Opened,
    element: &ElementName,
    moment: u64,
    pieces: u32,
) -> Result<Answer, AllocError>
    ensures { IfOk result (λ a. Answers opened.old (command.Reorganise element.now moment pieces) (string_bytes a.text) a.is_bad (Running opened.new)) }
{
    let number = element_of(opened.world.newest().get(), element);
    let word = work_word(opened.world.newest().get(), number);
    let begun = opened.world.begin_reorg(alloc, moment, number, pieces);
    Ok(reply(begun_line(alloc, word, pieces, begun)?))
}

/// `work`: the pieces of an element of the newest version in order, each until it has ended; what
/// was committed before a refusal stands.
pub(crate) fn work(
    alloc: Global,
    opened: &mut Opened,
    element: &ElementName,
    moment: u64,
    limit: u32,
) -> Result<Answer, AllocError>
    ensures { IfOk result (λ a. Answers opened.old (command.Work element.now moment limit) (string_bytes a.text) a.is_bad (Running opened.new)) }
{
    let number = element_of(opened.world.newest().get(), element);
    let worked = work_off(alloc, &mut opened.world, number, moment, limit);
    Ok(reply(worked_line(alloc, &worked)?))
}
