//! Which line is which command.
ghost use Rattle.collections.specs.Answers.{GivesOr};
ghost use Rattle.script_tokens.specs.declared.fault.LineFault.TheVariants.{Memory};
ghost use Rattle.script_tokens.specs.Productions.{Gives};
ghost use Rattle.script_grammar.specs.Commands.{length_of, table_of, index_of, name_at_moment, lease_of, txn_of, prepare_of, commit_of, query_of, forge_of, piece_of, moment_at, publish_of, plan_of, next_of, element_at_moment, reorganise_of, work_of, schema_command_of, command_of, command_at};

use crate::columns::{Declared, keys_first, split};
use crate::command::Command;
use crate::element::{ElementName, element, index_on};
use crate::named::{NamedChange, NamedMove};
use crate::operation::Operation;
use crate::selection::Selection;
use collections::List;
use keycode::Text;
use script_tokens::{
    LineFault, Mark, Production, Token, after_mark, after_word, at_end, count, cut_brackets,
    is_word, name, read_each, small_count, tokens_of,
};
use std::alloc::Global;

#[tactic(auto, unfolding(crate::specs::Commands::length_of))]
fn length(tokens: &[Token<'_>]) -> Result<Command, LineFault>
    ensures { Gives (λ x. x) result (length_of tokens.now) }
{
    let (length, rest) = count(tokens)?;
    at_end(Command::Length(length), rest)
}

#[tactic(auto, unfolding(crate::specs::Commands::table_of))]
fn table(alloc: Global, tokens: &[Token<'_>]) -> Result<Command, LineFault>
    ensures { Gives (λ x. x) result (table_of tokens.now) }
{
    let (name, rest) = name(alloc, tokens)?;
    let (inner, rest) = cut_brackets(rest)?;
    at_end((), rest)?;
    let columns = read_each::<Declared>(alloc, inner, Mark::Comma)?;
    if !keys_first(columns.as_slice()) {
        return Err(LineFault::Malformed);
    }
    let (key, columns) = split(alloc, columns)?;
    Ok(Command::Table { name, key, columns })
}

#[tactic(auto, unfolding(crate::specs::Commands::index_of))]
fn index(alloc: Global, tokens: &[Token<'_>]) -> Result<Command, LineFault>
    ensures { Gives (λ x. x) result (index_of tokens.now) }
{
    let ((ElementName { table, name }, columns), rest) = index_on(alloc, tokens)?;
    let declared = Command::Index {
        name,
        table,
        columns,
    };
    at_end(declared, rest)
}

/// A name, and the moment at which it is used.
#[tactic(auto, unfolding(crate::specs::Commands::name_at_moment))]
fn name_at_moment<'t, 'a>(
    alloc: Global,
    tokens: &'t [Token<'a>],
) -> Result<((Text, u64), &'t [Token<'a>]), LineFault>
    ensures { Gives (λ x. (x.0, x.1.now)) result (name_at_moment tokens.entry.now) }
{
    let (name, rest) = name(alloc, tokens)?;
    let rest = after_word(rest, b"at")?;
    let (moment, rest) = count(rest)?;
    Ok(((name, moment), rest))
}

#[tactic(auto, unfolding(crate::specs::Commands::lease_of))]
fn lease(alloc: Global, tokens: &[Token<'_>]) -> Result<Command, LineFault>
    ensures { Gives (λ x. x) result (lease_of tokens.now) }
{
    let ((server, moment), rest) = name_at_moment(alloc, tokens)?;
    at_end(Command::Lease { server, moment }, rest)
}

#[tactic(auto, unfolding(crate::specs::Commands::txn_of))]
fn txn(alloc: Global, tokens: &[Token<'_>]) -> Result<Command, LineFault>
    ensures { Gives (λ x. x) result (txn_of tokens.now) }
{
    let ((server, moment), rest) = name_at_moment(alloc, tokens)?;
    let rest = after_mark(rest, Mark::Colon)?;
    let operations = read_each::<Operation>(alloc, rest, Mark::Semicolon)?;
    Ok(Command::Txn {
        server,
        moment,
        operations,
    })
}

#[tactic(auto, unfolding(crate::specs::Commands::prepare_of))]
fn prepare(alloc: Global, tokens: &[Token<'_>]) -> Result<Command, LineFault>
    ensures { Gives (λ x. x) result (prepare_of tokens.now) }
{
    let (under, rest) = name(alloc, tokens)?;
    let rest = after_word(rest, b"by")?;
    let (server, rest) = name(alloc, rest)?;
    let rest = after_mark(rest, Mark::Colon)?;
    let operations = read_each::<Operation>(alloc, rest, Mark::Semicolon)?;
    Ok(Command::Prepare {
        name: under,
        server,
        operations,
    })
}

#[tactic(auto, unfolding(crate::specs::Commands::commit_of))]
fn commit(alloc: Global, tokens: &[Token<'_>]) -> Result<Command, LineFault>
    ensures { Gives (λ x. x) result (commit_of tokens.now) }
{
    let ((name, moment), rest) = name_at_moment(alloc, tokens)?;
    at_end(Command::Commit { name, moment }, rest)
}

#[tactic(auto, unfolding(crate::specs::Commands::query_of))]
fn query(alloc: Global, tokens: &[Token<'_>]) -> Result<Command, LineFault>
    ensures { Gives (λ x. x) result (query_of tokens.now) }
{
    let ((server, moment), rest) = name_at_moment(alloc, tokens)?;
    let rest = after_mark(rest, Mark::Colon)?;
    let selection = Selection::read(alloc, rest)?;
    Ok(Command::Query {
        server,
        moment,
        selection,
    })
}

#[tactic(auto, unfolding(crate::specs::Commands::forge_of))]
fn forge(alloc: Global, tokens: &[Token<'_>]) -> Result<Command, LineFault>
    ensures { Gives (λ x. x) result (forge_of tokens.now) }
{
    let (server, rest) = name(alloc, tokens)?;
    let rest = after_word(rest, b"version")?;
    let (version, rest) = count(rest)?;
    let rest = after_word(rest, b"granted")?;
    let (granted, rest) = count(rest)?;
    let rest = after_word(rest, b"until")?;
    let (until, rest) = count(rest)?;
    let lease = Command::Forge {
        server,
        version,
        granted,
        until,
    };
    at_end(lease, rest)
}

#[tactic(auto, unfolding(crate::specs::Commands::piece_of))]
fn piece(alloc: Global, tokens: &[Token<'_>]) -> Result<Command, LineFault>
    ensures { Gives (λ x. x) result (piece_of tokens.now) }
{
    let (under, rest) = name(alloc, tokens)?;
    let rest = after_word(rest, b"of")?;
    let (element, rest) = element(alloc, rest)?;
    let (piece, rest) = small_count(rest)?;
    let rest = after_word(rest, b"limit")?;
    let (limit, rest) = small_count(rest)?;
    let read = Command::Piece {
        name: under,
        element,
        piece,
        limit,
    };
    at_end(read, rest)
}

/// The moment at which something is done.
#[tactic(auto, unfolding(crate::specs::Commands::moment_at))]
fn moment<'t, 'a>(tokens: &'t [Token<'a>]) -> Result<(u64, &'t [Token<'a>]), LineFault>
    ensures { Gives (λ x. (x.0, x.1.now)) result (moment_at tokens.entry.now) }
{
    let rest = after_word(tokens, b"at")?;
    count(rest)
}

#[tactic(auto, unfolding(crate::specs::Commands::publish_of))]
fn publish(alloc: Global, tokens: &[Token<'_>]) -> Result<Command, LineFault>
    ensures { Gives (λ x. x) result (publish_of tokens.now) }
{
    let (moment, rest) = moment(tokens)?;
    let rest = after_mark(rest, Mark::Colon)?;
    let moves = read_each::<NamedMove>(alloc, rest, Mark::Semicolon)?;
    Ok(Command::Publish { moment, moves })
}

#[tactic(auto, unfolding(crate::specs::Commands::plan_of))]
fn plan(alloc: Global, tokens: &[Token<'_>]) -> Result<Command, LineFault>
    ensures { Gives (λ x. x) result (plan_of tokens.now) }
{
    let rest = after_mark(tokens, Mark::Colon)?;
    let changes = read_each::<NamedChange>(alloc, rest, Mark::Semicolon)?;
    Ok(Command::Plan { changes })
}

#[tactic(auto, unfolding(crate::specs::Commands::next_of))]
fn next(tokens: &[Token<'_>]) -> Result<Command, LineFault>
    ensures { Gives (λ x. x) result (next_of tokens.now) }
{
    let (moment, rest) = moment(tokens)?;
    at_end(Command::Next { moment }, rest)
}

/// An element, and the moment at which it is used.
#[tactic(auto, unfolding(crate::specs::Commands::element_at_moment))]
fn element_at_moment<'t, 'a>(
    alloc: Global,
    tokens: &'t [Token<'a>],
) -> Result<((ElementName, u64), &'t [Token<'a>]), LineFault>
    ensures { Gives (λ x. (x.0, x.1.now)) result (element_at_moment tokens.entry.now) }
{
    let (element, rest) = element(alloc, tokens)?;
    let (moment, rest) = moment(rest)?;
    Ok(((element, moment), rest))
}

#[tactic(auto, unfolding(crate::specs::Commands::reorganise_of))]
fn reorganise(alloc: Global, tokens: &[Token<'_>]) -> Result<Command, LineFault>
    ensures { Gives (λ x. x) result (reorganise_of tokens.now) }
{
    let ((element, moment), rest) = element_at_moment(alloc, tokens)?;
    let rest = after_word(rest, b"pieces")?;
    let (pieces, rest) = small_count(rest)?;
    let read = Command::Reorganise {
        element,
        moment,
        pieces,
    };
    at_end(read, rest)
}

#[tactic(auto, unfolding(crate::specs::Commands::work_of))]
fn work(alloc: Global, tokens: &[Token<'_>]) -> Result<Command, LineFault>
    ensures { Gives (λ x. x) result (work_of tokens.now) }
{
    let ((element, moment), rest) = element_at_moment(alloc, tokens)?;
    let rest = after_word(rest, b"limit")?;
    let (limit, rest) = small_count(rest)?;
    let read = Command::Work {
        element,
        moment,
        limit,
    };
    at_end(read, rest)
}

/// A command on the schema, or on the work that a change of it needs.
#[tactic(auto, unfolding(crate::specs::Commands::schema_command_of))]
fn schema_command(alloc: Global, tokens: &[Token<'_>]) -> Result<Command, LineFault>
    ensures { Gives (λ x. x) result (schema_command_of tokens.now) }
{
    let [first, rest @ ..] = tokens else {
        return Err(LineFault::Malformed);
    };
    if is_word(first, b"forge") {
        forge(alloc, rest)
    } else if is_word(first, b"piece") {
        piece(alloc, rest)
    } else if is_word(first, b"publish") {
        publish(alloc, rest)
    } else if is_word(first, b"plan") {
        plan(alloc, rest)
    } else if is_word(first, b"next") {
        next(rest)
    } else if is_word(first, b"reorganise") {
        reorganise(alloc, rest)
    } else if is_word(first, b"work") {
        work(alloc, rest)
    } else if is_word(first, b"status") {
        at_end(Command::Status, rest)
    } else {
        Err(LineFault::Malformed)
    }
}

#[tactic(auto, unfolding(crate::specs::Commands::command_of))]
fn parsed_command(alloc: Global, tokens: &[Token<'_>]) -> Result<Command, LineFault>
    ensures { Gives (λ x. x) result (command_of tokens.now) }
{
    let [first, rest @ ..] = tokens else {
        return Err(LineFault::Malformed);
    };
    if is_word(first, b"length") {
        length(rest)
    } else if is_word(first, b"table") {
        table(alloc, rest)
    } else if is_word(first, b"index") {
        index(alloc, rest)
    } else if is_word(first, b"open") {
        at_end(Command::Open, rest)
    } else if is_word(first, b"lease") {
        lease(alloc, rest)
    } else if is_word(first, b"txn") {
        txn(alloc, rest)
    } else if is_word(first, b"pairs") {
        at_end(Command::Pairs, rest)
    } else if is_word(first, b"check") {
        at_end(Command::Check, rest)
    } else if is_word(first, b"log") {
        at_end(Command::Log, rest)
    } else if is_word(first, b"prepare") {
        prepare(alloc, rest)
    } else if is_word(first, b"commit") {
        commit(alloc, rest)
    } else if is_word(first, b"query") {
        query(alloc, rest)
    } else {
        schema_command(alloc, tokens)
    }
}

/// The command that a line parses to.
///
/// `line` is the bytes of the line without its ending. How long it may be is the caller's to say,
/// and a silent line parses to no command. The refusals: `Malformed` if the line is not of the
/// grammar, which also holds of a text that is not UTF-8 and of a number that does not fit its
/// place, and `Memory`, in place of either answer, if memory ran out. A refusal leaves nothing
/// behind.
pub fn read_command(alloc: Global, line: &[u8]) -> Result<Command, LineFault>
    ensures { GivesOr Memory (λ command. command) result (command_at line.now) }
{
    match tokens_of(alloc, line)? {
        Some(tokens) => parsed_command(alloc, tokens.as_slice()),
        None => Err(LineFault::Malformed),
    }
}
