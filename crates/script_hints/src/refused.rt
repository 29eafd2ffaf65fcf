//! What a refusal means, and what may be done.
use crate::in_way::in_the_way;
use crate::limits::limit_hint;
use crate::meanings::meaning_of;
use crate::unknown::{unknown_change, unknown_element, unknown_move};
use row_map::{KeyOf, read_key};
use schema_version::Schema;
use script_grammar::Command;
use script_progress::script_session::Opened;
use script_progress::script_views::{
    Wrong, push_element, push_nearest, push_tuple, wrong_operations, wrong_selection,
};
use std::alloc::{AllocError, Global};

/// A refusal: its name, and the words after it.
#[derive(Clone, Copy)]
pub(crate) struct Refusal<'a> {
    /// The name.
    pub name: &'a str,
    /// Its first number or key; empty if it has none.
    pub first: &'a str,
    /// Its second number; empty if it has none.
    pub second: &'a str,
}

/// The refusal that these words are.
///
/// - `words`: a reply after its first word, without its line end.
pub(crate) fn refusal_of(words: &str) -> Refusal<'_> {
    let (name, rest) = words.split_once(' ').unwrap_or((words, ""));
    let (first, second) = rest.split_once(' ').unwrap_or((rest, ""));
    Refusal {
        name,
        first,
        second,
    }
}

// The name that comes first in a line: a server's or that of work.
fn first_name(command: &Command) -> &str {
    match command {
        Command::Lease { server, .. }
        | Command::Txn { server, .. }
        | Command::Prepare { server, .. }
        | Command::Query { server, .. } => server.as_str(),
        Command::Commit { name, .. } | Command::Piece { name, .. } => name.as_str(),
        _ => "",
    }
}

fn push_target(out: &mut String, command: &Command) -> Result<(), AllocError> {
    match command {
        Command::Reorganise { element, .. }
        | Command::Work { element, .. }
        | Command::Piece { element, .. } => {
            let table = element.table.as_str();
            let name = element.name.as_str();
            write!(out, "{table}.{name}")
        }
        _ => Ok(()),
    }
}

fn push_field(
    out: &mut String,
    opened: &Opened,
    command: &Command,
    refusal: Refusal<'_>,
    field: &str,
) -> Result<(), AllocError> {
    let moment = opened.world.moment();
    match field {
        "1" => out.push_str(refusal.first),
        "2" => out.push_str(refusal.second),
        "s" => out.push_str(first_name(command)),
        "t" => push_target(out, command),
        "m" => write!(out, "{moment}"),
        _ => {
            let number = refusal.first.parse::<u32>().unwrap_or(0);
            push_element(out, opened.world.newest().get(), number)
        }
    }
}

fn meaning_for(command: &Command, name: &str) -> &'static str {
    match (command, name) {
        (Command::Commit { .. }, "BadLease") => meaning_of("BadLease of work"),
        (Command::Commit { .. }, "LeaseEnded") => meaning_of("LeaseEnded of work"),
        (Command::Next { .. }, "TooEarly") => meaning_of("TooEarly of next"),
        _ => meaning_of(name),
    }
}

// Adds what the refusal means, with its fields.
fn push_meaning(
    out: &mut String,
    opened: &Opened,
    command: &Command,
    refusal: Refusal<'_>,
) -> Result<(), AllocError> {
    for part in meaning_for(command, refusal.name).split('{') {
        match part.split_once('}') {
            Some((field, text)) => {
                push_field(out, opened, command, refusal, field)?;
                out.push_str(text)?;
            }
            None => out.push_str(part)?,
        }
    }
    Ok(())
}

fn push_nearest_server(
    alloc: Global,
    out: &mut String,
    opened: &Opened,
    server: &str,
) -> Result<(), AllocError> {
    let mut names = Vec::new(alloc);
    for (name, _) in opened.leases.entries() {
        names.push(std::str::from_utf8(name.as_slice()).unwrap_or(""))?;
    }
    push_nearest(alloc, out, server, names.as_slice())
}

// What is left to do before the step that waits for this element.
fn push_unfinished(out: &mut String, opened: &Opened, number: u32) -> Result<(), AllocError> {
    let moment = opened.world.moment();
    let schema = opened.world.newest().get();
    push_element(out, schema, number)?;
    if opened.world.progress(number).is_some() {
        out.push_str(" is not reorganised to its end: work ")?;
        push_element(out, schema, number)?;
        return write!(out, " at {moment} limit 1000");
    }
    out.push_str(" waits for its reorganisation: reorganise ")?;
    push_element(out, schema, number)?;
    let earliest = opened.world.timeline().earliest().max(moment);
    write!(out, " at {earliest} pieces 1 begins it")
}

fn unhexed(alloc: Global, digits: &str) -> Result<Vec<u8>, AllocError> {
    let mut bytes = Vec::new(alloc);
    let mut high = None;
    for digit in digits.chars() {
        let value = digit.to_digit(16).unwrap_or(0) as u8;
        match high {
            None => high = Some(value % 16),
            Some(front) => {
                bytes.push(front.saturating_mul(16).saturating_add(value % 16))?;
                high = None;
            }
        }
    }
    Ok(bytes)
}

// The row and the column of a key, or the entry of an index.
fn push_conflict(
    alloc: Global,
    out: &mut String,
    schema: &Schema,
    digits: &str,
) -> Result<(), AllocError> {
    let bytes = unhexed(alloc, digits)?;
    let (table, key, element) = match read_key(alloc, bytes.as_slice()) {
        Ok(KeyOf::Exists { table, key }) => (table, key, 0),
        Ok(
            KeyOf::Column {
                table,
                key,
                element,
            },
        ) => (table, key, element),
        Ok(KeyOf::Index { element, values }) => {
            push_element(out, schema, element)?;
            out.push_str(" at ")?;
            push_tuple(out, values.as_slice())?;
            return out.push_str(" has changed since it was read; prepare it again");
        }
        Err(_) => return out.push_str("it has changed since it was read; prepare it again"),
    };
    out.push_str(schema.table_name(table).unwrap_or(""))?;
    out.push_str(" row ")?;
    push_tuple(out, key.as_slice())?;
    if let Some(column) = schema.element(element) {
        out.push_str(", column ")?;
        out.push_str(column.name.as_str())?;
    }
    out.push_str(" has changed since it was read; prepare it again")
}

// What is wrong with the names and values of a transaction or a query.
fn wrong_line(
    alloc: Global,
    opened: &Opened,
    command: &Command,
    wrong: Wrong,
) -> Result<Option<String>, AllocError> {
    let Some(held) = opened.leases.get(first_name(command).as_bytes()) else {
        return Ok(None);
    };
    let schema = held.schema.get();
    match command {
        Command::Txn { operations, .. } | Command::Prepare { operations, .. } => {
            wrong_operations(alloc, schema, operations.as_slice(), wrong)
        }
        Command::Query { selection, .. } => wrong_selection(alloc, schema, selection, wrong),
        _ => Ok(None),
    }
}

// The name of a line on the schema that the newest version does not have.
fn unknown(
    alloc: Global,
    schema: &Schema,
    command: &Command,
) -> Result<Option<String>, AllocError> {
    match command {
        Command::Publish { moves, .. } => unknown_move(alloc, schema, moves.as_slice()),
        Command::Plan { changes } => unknown_change(alloc, schema, changes.as_slice()),
        Command::Reorganise { element, .. }
        | Command::Work { element, .. }
        | Command::Piece { element, .. } => unknown_element(alloc, schema, element),
        _ => Ok(None),
    }
}

// The words that need the names and values of the line.
fn named_wrong(
    alloc: Global,
    opened: &Opened,
    command: &Command,
    name: &str,
) -> Result<Option<String>, AllocError> {
    match name {
        "NoTable" => wrong_line(alloc, opened, command, Wrong::Table),
        "NotPublic" => wrong_line(alloc, opened, command, Wrong::Column),
        "WrongType" => wrong_line(alloc, opened, command, Wrong::Type),
        "Unknown" | "NotWanted" | "StillIndexed" => {
            unknown(alloc, opened.world.newest().get(), command)
        }
        "Limit" => limit_hint(alloc, opened.world.newest().get(), command),
        _ => Ok(None),
    }
}

/// What the refusal of `open` means. Refused only when out of memory.
///
/// - `name`: the refusal's name.
pub(crate) fn opening_hint(alloc: Global, name: &str) -> Result<String, AllocError> {
    meaning_of(name).to_string(alloc)
}

/// What the refusal of a command means, in the words of its line; empty if there is nothing to say.
/// Refused only when out of memory.
///
/// - `opened`: the session's world, leases and plan, after the refusal, which changed nothing.
/// - `command`: the command.
/// - `refusal`: its refusal.
pub(crate) fn refusal_hint(
    alloc: Global,
    opened: &Opened,
    command: &Command,
    refusal: Refusal<'_>,
) -> Result<String, AllocError> {
    if let Some(found) = named_wrong(alloc, opened, command, refusal.name)? {
        return Ok(found);
    }
    if let Some(found) = in_the_way(alloc, opened, command)? {
        return Ok(found);
    }
    let mut out = String::new(alloc);
    let schema = opened.world.newest().get();
    match refusal.name {
        "Conflict" => push_conflict(alloc, &mut out, schema, refusal.first)?,
        "Unfinished" => {
            let number = refusal.first.parse::<u32>().unwrap_or(0);
            push_unfinished(&mut out, opened, number)?;
        }
        "NoServer" => {
            push_meaning(&mut out, opened, command, refusal)?;
            push_nearest_server(alloc, &mut out, opened, first_name(command))?;
        }
        _ => push_meaning(&mut out, opened, command, refusal)?,
    }
    Ok(out)
}
