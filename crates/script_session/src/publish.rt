//! The publication of a version by a script.
ghost use Rattle.std.specs.Prelude.{◌≡◌, IfOk, string_bytes};
ghost use Rattle.script_grammar.specs.declared.command.Command.TheVariants as command;
ghost use Rattle.script_session.specs.declared.session.Session.TheVariants.{Running};
ghost use Rattle.script_session.specs.Answer.{Answers};

use crate::session::{Answer, Opened, reply};
use collections::List;
use script_grammar::NamedMove;
use script_names::step_of;
use script_replies::published_line;
use std::alloc::{AllocError, Global};

/// `publish`: the names of the moves are looked up in the newest version, and the step is
/// published.
pub(crate) fn publish(
    alloc: Global,
    opened: &mut Opened,
    moment: u64,
    moves: List<NamedMove>,
) -> Result<Answer, AllocError>
    ensures { IfOk result (λ a. Answers opened.old (command.Publish moment moves) (string_bytes a.text) a.is_bad (Running opened.new)) }
{
    let step = step_of(alloc, opened.world.newest().get(), moves)?;
    let published = opened.world.publish(alloc, moment, &step);
    Ok(reply(published_line(alloc, &published)?))
}
