//! The queries of a script.
ghost use Rattle.std.specs.Prelude.{◌≡◌, IfOk, string_bytes};
ghost use Rattle.script_grammar.specs.declared.command.Command.TheVariants as command;
ghost use Rattle.script_names.specs.Names.{asked};
ghost use Rattle.script_session.specs.Query.{Queried};
ghost use Rattle.script_session.specs.declared.session.Session.TheVariants.{Running};
ghost use Rattle.script_session.specs.Answer.{Answers};

use crate::session::{Answer, Opened, ServerLease, refusal, reply};
use keycode::Text;
use script_grammar::Selection;
use script_names::asked;
use script_replies::world::World;
use script_replies::{rows_text, unanswered_line};
use std::alloc::{AllocError, Global};

// What a query answers under a lease, as it is printed.
fn query_rows(
    alloc: Global,
    world: &World,
    held: &ServerLease,
    moment: u64,
    selection: Selection,
) -> Result<String, AllocError>
    ensures { IfOk result (λ text. Queried world.now held.now moment (asked held.now.schema selection) (string_bytes text)) }
{
    let schema = held.schema.get();
    let query = asked(alloc, schema, selection)?;
    match world.query(alloc, moment, &held.lease, &query) {
        Ok(rows) => rows_text(alloc, schema, &query, rows.as_slice()),
        Err(refusal) => unanswered_line(alloc, refusal),
    }
}

/// `query`: the rows that the world answers under the server's lease.
pub(crate) fn query(
    alloc: Global,
    opened: &Opened,
    server: &Text,
    moment: u64,
    selection: Selection,
) -> Result<Answer, AllocError>
    ensures { IfOk result (λ a. Answers opened.now (command.Query server.now moment selection) (string_bytes a.text) a.is_bad (Running opened.now)) }
{
    let text = match opened.leases.get(server.as_bytes()) {
        Some(held) => query_rows(alloc, &opened.world, held, moment, selection)?,
        None => return refusal(alloc, "NoServer"),
    };
    Ok(reply(text))
}
