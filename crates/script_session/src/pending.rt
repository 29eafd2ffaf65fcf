//! What is prepared in one line and committed in another.
ghost use Rattle.std.specs.Prelude.{◌≡◌, IfOk, string_bytes};
ghost use Rattle.script_grammar.specs.declared.command.Command.TheVariants as command;
ghost use Rattle.script_session.specs.Answer.{Answers, Ends, kept, left_in};
ghost use Rattle.script_session.specs.declared.session.Session.TheVariants.{Running};

use crate::prepare::{Preparation, prepare_for, prepared_line};
use crate::session::{Answer, Opened, Pending, key_of, refusal, reply};
use collections::List;
use keycode::Text;
use script_grammar::Operation;
use script_replies::world::World;
use script_replies::{committed_line, pieced_line, rejected_line, unpieced_line};
use std::alloc::{AllocError, Global};

/// What was prepared is kept under this name, in place of what was kept there.
pub(crate) fn keep(opened: &mut Opened, name: Text, prepared: Pending) -> Result<(), AllocError>
    ensures { IfOk result (λ done. opened.new ≡ kept opened.old name prepared) }
{
    let name = key_of(name)?;
    opened.pending.insert(name, prepared)?;
    Ok(())
}

/// `prepare`: what could be prepared is kept under its name, in place of what was there; else what
/// was there stays.
pub(crate) fn prepare(
    alloc: Global,
    opened: &mut Opened,
    name: Text,
    server: &Text,
    operations: List<Operation>,
) -> Result<Answer, AllocError>
    ensures { IfOk result (λ a. Answers opened.old (command.Prepare name server.now operations) (string_bytes a.text) a.is_bad (Running opened.new)) }
{
    let how = match opened.leases.get(server.as_bytes()) {
        Some(held) => prepare_for(alloc, &opened.world, held, operations),
        None => return refusal(alloc, "NoServer"),
    };
    let answer = reply(prepared_line(alloc, &how)?);
    if let Preparation::Ready(prepared) = how {
        keep(opened, name, Pending::Txn(prepared))?;
    }
    Ok(answer)
}

// What the world answers to the commit of what was prepared, and what is left of that.
fn commit_pending(
    alloc: Global,
    world: &mut World,
    moment: u64,
    pending: Pending,
) -> Result<(String, Option<Pending>), AllocError>
    ensures { IfOk result (λ x. Ends world.old moment pending (string_bytes x.0) x.1 world.new) }
{
    match pending {
        Pending::Txn(prepared) => match world.commit(alloc, moment, prepared) {
            Ok(done) => Ok((committed_line(alloc, &done)?, None)),
            Err((fault, prepared)) => {
                let text = rejected_line(alloc, &fault)?;
                Ok((text, Some(Pending::Txn(prepared))))
            }
        },
        Pending::Piece(prepared) => match world.commit_piece(alloc, moment, prepared) {
            Ok(done) => Ok((pieced_line(alloc, &done)?, None)),
            Err((fault, prepared)) => {
                let text = unpieced_line(alloc, &fault)?;
                Ok((text, Some(Pending::Piece(prepared))))
            }
        },
    }
}

// What is left of what was prepared under this name is kept there.
fn put_back(opened: &mut Opened, name: Text, left: Option<Pending>) -> Result<(), AllocError>
    ensures { IfOk result (λ done. opened.new ≡ left_in opened.old name left) }
{
    match left {
        None => Ok(()),
        Some(prepared) => keep(opened, name, prepared),
    }
}

/// `commit`: what was prepared under the name is committed and is then spent, unless the world
/// refuses it.
pub(crate) fn commit(
    alloc: Global,
    opened: &mut Opened,
    name: Text,
    moment: u64,
) -> Result<Answer, AllocError>
    ensures { IfOk result (λ a. Answers opened.old (command.Commit name moment) (string_bytes a.text) a.is_bad (Running opened.new)) }
{
    match opened.pending.take(name.as_bytes()) {
        None => refusal(alloc, "NoWork"),
        Some(pending) => {
            let (text, left) = commit_pending(alloc, &mut opened.world, moment, pending)?;
            put_back(opened, name, left)?;
            Ok(reply(text))
        }
    }
}
