//! The lines after `open`.
ghost use Rattle.std.specs.Prelude.{◌≡◌, IfOk, length, string_bytes};
ghost use Rattle.std.specs.FinMap as map;
ghost use Rattle.std.specs.List.{flat_map};
ghost use Rattle.script_grammar.specs.declared.command.Command.TheVariants as command;
ghost use Rattle.script_replies.specs.Texts.{pair_line};
ghost use Rattle.script_session.specs.Answer.{Answers, Changes};
ghost use Rattle.script_session.specs.declared.session.Session.TheVariants.{Running};

use crate::begin_reorg::{reorganise, work};
use crate::forge::forge;
use crate::pending::{commit, prepare};
use crate::pieces::piece;
use crate::plan::{next, plan};
use crate::publish::publish;
use crate::query::query;
use crate::session::{Answer, Opened, ServerLease, bad_line, key_of, refusal, reply};
use crate::txn::{transact, transacted_line};
use collections::List;
use keycode::Text;
use lease::Lease;
use row_map::PairView;
use script_grammar::{Command, Operation};
use script_replies::world::World;
use script_replies::{
    check_line, grant_refusal, lease_line, push_numbered, push_pair, status_line,
};
use std::alloc::{AllocError, Global};

fn lease(
    alloc: Global,
    opened: &mut Opened,
    server: Text,
    moment: u64,
) -> Result<Answer, AllocError>
    ensures { IfOk result (λ a. Answers opened.old (command.Lease server moment) (string_bytes a.text) a.is_bad (Running opened.new)) }
{
    let name = key_of(server)?;
    match opened.world.lease(alloc, moment) {
        Ok(grant) => {
            let answer = reply(lease_line(alloc, &grant.lease)?);
            let held = ServerLease {
                lease: grant.lease,
                schema: grant.schema,
            };
            opened.leases.insert(name, held)?;
            Ok(answer)
        }
        Err(fault) => { Ok(reply(grant_refusal(alloc, fault)?)) }
    }
}

fn txn(
    alloc: Global,
    opened: &mut Opened,
    server: &Text,
    moment: u64,
    operations: List<Operation>,
) -> Result<Answer, AllocError>
    ensures { IfOk result (λ a. Answers opened.old (command.Txn server.now moment operations) (string_bytes a.text) a.is_bad (Running opened.new)) }
{
    let how = match opened.leases.get(server.as_bytes()) {
        Some(held) => transact(alloc, &mut opened.world, held, moment, operations),
        None => return refusal(alloc, "NoServer"),
    };
    Ok(reply(transacted_line(alloc, &how)?))
}

// All pairs, a line each, and their number.
fn all_pairs(alloc: Global, world: &World) -> Result<(String, u64), AllocError>
    ensures text { IfOk result (λ x. string_bytes x.0 ≡ flat_map pair_line (map.entries world.now.pairs)) }
    ensures number { IfOk result (λ x. x.1 ≡ length (map.entries world.now.pairs)) }
{
    let mut text = String::new(alloc);
    let mut number = 0u64;
    let mut walk = world.walk();
    while let Some((key, value)) = walk.next() {
        push_pair(&mut text, key, value)?;
        if number == u64::MAX {
            return Err(AllocError);
        }
        number += 1;
    }
    Ok((text, number))
}

fn pairs(alloc: Global, opened: &Opened) -> Result<Answer, AllocError>
    ensures { IfOk result (λ a. Answers opened.now command.Pairs (string_bytes a.text) a.is_bad (Running opened.now)) }
{
    let (mut text, number) = all_pairs(alloc, &opened.world)?;
    push_numbered(&mut text, "ok pairs ", number)?;
    Ok(reply(text))
}

fn log(alloc: Global, opened: &Opened) -> Result<Answer, AllocError>
    ensures { IfOk result (λ a. Answers opened.now command.Log (string_bytes a.text) a.is_bad (Running opened.now)) }
{
    let number = opened.world.log_len();
    let mut text = String::new(alloc);
    push_numbered(&mut text, "ok log ", number)?;
    Ok(reply(text))
}

fn check(alloc: Global, opened: &Opened) -> Result<Answer, AllocError>
    ensures { IfOk result (λ a. Answers opened.now command.Check (string_bytes a.text) a.is_bad (Running opened.now)) }
{
    let text = match opened.world.check(alloc) {
        Ok(report) => check_line(alloc, report)?,
        Err(_) => "refused Memory\n".to_string(alloc)?,
    };
    Ok(reply(text))
}

fn status(alloc: Global, opened: &Opened) -> Result<Answer, AllocError>
    ensures { IfOk result (λ a. Answers opened.now command.Status (string_bytes a.text) a.is_bad (Running opened.now)) }
{
    let mut text = status_line(alloc, &opened.world)?;
    text.push_str("\n")?;
    Ok(reply(text))
}

// What a line that changes the schema answers, and what it leaves.
fn change(alloc: Global, opened: &mut Opened, command: Command) -> Result<Answer, AllocError>
    ensures { IfOk result (λ a. Changes opened.old command (string_bytes a.text) a.is_bad (Running opened.new)) }
{
    match command {
        Command::Forge {
            server,
            version,
            granted,
            until,
        } => {
            let lease = Lease {
                version,
                granted,
                until,
            };
            forge(alloc, opened, server, lease)
        }
        Command::Publish { moment, moves } => publish(alloc, opened, moment, moves),
        Command::Piece {
            name,
            element,
            piece: number,
            limit,
        } => piece(alloc, opened, name, &element, number, limit),
        Command::Reorganise {
            element,
            moment,
            pieces,
        } => reorganise(alloc, opened, &element, moment, pieces),
        Command::Work {
            element,
            moment,
            limit,
        } => work(alloc, opened, &element, moment, limit),
        Command::Plan { changes } => plan(alloc, opened, changes),
        Command::Next { moment } => next(alloc, opened, moment),
        Command::Status => status(alloc, opened),
        _ => bad_line(alloc),
    }
}

/// What a line after `open` answers, and what it leaves.
pub(crate) fn answer(
    alloc: Global,
    opened: &mut Opened,
    command: Command,
) -> Result<Answer, AllocError>
    ensures { IfOk result (λ a. Answers opened.old command (string_bytes a.text) a.is_bad (Running opened.new)) }
{
    match command {
        Command::Lease { server, moment } => lease(alloc, opened, server, moment),
        Command::Txn {
            server,
            moment,
            operations,
        } => txn(alloc, opened, &server, moment, operations),
        Command::Pairs => pairs(alloc, opened),
        Command::Check => check(alloc, opened),
        Command::Log => log(alloc, opened),
        Command::Prepare {
            name,
            server,
            operations,
        } => prepare(alloc, opened, name, &server, operations),
        Command::Commit { name, moment } => commit(alloc, opened, name, moment),
        Command::Query {
            server,
            moment,
            selection,
        } => query(alloc, opened, &server, moment, selection),
        other => change(alloc, opened, other),
    }
}
