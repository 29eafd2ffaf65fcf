//! By which path a query is answered.
ghost use Rattle.std.specs.Prelude.{◌≡◌, ◌++◌, IfOk, IfNone, IfSome, OnOk, codes, option_map, string_bytes};
ghost use Rattle.collections.specs.Answers.{GivesOr};
ghost use Rattle.script_tokens.specs.declared.fault.LineFault.TheVariants.{Memory};
ghost use Rattle.row_query.specs.Path.{plain_path};
ghost use Rattle.row_query.specs.Refused.{IsRefused, IsSound};
ghost use Rattle.script_session.specs.Rows.{fault_name};
ghost use Rattle.script_session.specs.Texts.{refused};
ghost use Rattle.script_session.specs.Names.{asked};
ghost use Rattle.script_views.specs.Explain.{BeginsWith, Explains, ExplainsQuery, ExplainsUnder, explained, path_words, query_of, timed};

use crate::element_words::push_element;
use crate::named::{Wrong, wrong_selection};
use byte_map::{Bytes, KeyMap};
use keycode::Text;
use row_query::{Path, Query, QueryFault, answer, path_of};
use schema_version::Schema;
use script_grammar::{Command, Selection, read_command};
use script_session::script_names::asked;
use script_session::{Opened, ServerLease};
use script_tokens::LineFault;
use std::alloc::{AllocError, Global};

fn push_path(out: &mut String, schema: &Schema, path: Path) -> Result<(), AllocError>
    ensures { OnOk result (string_bytes out.new ≡ string_bytes out.old ++ path_words schema.now path) }
{
    match path {
        Path::Key => out.push_str("key: one row is looked up"),
        Path::Scan => out.push_str("scan: all rows of the table are read"),
        Path::Index(number) => {
            out.push_str("index ")?;
            push_element(out, schema, number)?;
            out.push_str(": its pairs between the bounds are read, and the row of each")
        }
    }
}

// The first thing that is wrong with a selection.
fn wrong_text(
    alloc: Global,
    schema: &Schema,
    selection: &Selection,
) -> Result<Option<String>, AllocError> {
    for wrong in [Wrong::Table, Wrong::Column, Wrong::Type] {
        let found = wrong_selection(alloc, schema, selection, wrong)?;
        if found.is_some() {
            return Ok(found);
        }
    }
    Ok(None)
}

fn path_text(alloc: Global, schema: &Schema, query: &Query) -> Result<String, AllocError>
    ensures { IfOk result (λ text. string_bytes text ≡ path_words schema.now (plain_path schema.now query.now)) }
{
    let mut out = String::new(alloc);
    push_path(&mut out, schema, path_of(schema, query))?;
    Ok(out)
}

// Why a query is refused, if it is: what it is answered over no rows.
fn fault_of(alloc: Global, schema: &Schema, query: &Query) -> Result<Option<QueryFault>, AllocError>
    ensures sound { IfOk result (λ found. IfNone found (IsSound schema.now query.now)) }
    ensures refused { IfOk result (λ found. IfSome found (λ fault. IsRefused schema.now query.now fault)) }
{
    let none: KeyMap<Bytes> = KeyMap::new(alloc);
    match answer(alloc, schema, &none, query) {
        Ok(_) => Ok(None),
        Err(QueryFault::Memory) => Err(AllocError),
        Err(fault) => Ok(Some(fault)),
    }
}

fn push_fault(out: &mut String, fault: QueryFault) -> Result<(), AllocError>
    ensures { OnOk result (string_bytes out.new ≡ string_bytes out.old ++ fault_name fault) }
{
    match fault {
        QueryFault::NoTable => out.push_str("NoTable"),
        QueryFault::NotPublic { column } => write!(out, "NotPublic {column}"),
        QueryFault::WrongType => out.push_str("WrongType"),
        QueryFault::Memory => out.push_str("Memory"),
    }
}

// Adds a remark on a line of its own, if there is one.
fn push_remark(out: &mut String, remark: Option<String>) -> Result<(), AllocError>
    ensures { OnOk result (BeginsWith (string_bytes out.old) (string_bytes out.new)) }
{
    match remark {
        Some(remark) => {
            out.push_str("\n")?;
            out.push_str(remark.as_str())
        }
        None => Ok(()),
    }
}

// The refusal of a query, and what is wrong with it. That a remark is there is said by no contract;
// `.ci/prompts` shows it.
fn refused_text(
    alloc: Global,
    fault: QueryFault,
    remark: Option<String>,
) -> Result<String, AllocError>
    ensures { IfOk result (λ text. BeginsWith (refused (fault_name fault)) (string_bytes text)) }
{
    let mut out = "refused ".to_string(alloc)?;
    push_fault(&mut out, fault)?;
    push_remark(&mut out, remark)?;
    Ok(out)
}

// The path of a query, or its refusal with what is wrong with it.
fn query_text(
    alloc: Global,
    schema: &Schema,
    query: &Query,
    remark: Option<String>,
) -> Result<String, AllocError>
    ensures { IfOk result (λ text. ExplainsQuery schema.now query.now (string_bytes text)) }
{
    match fault_of(alloc, schema, query)? {
        Some(fault) => refused_text(alloc, fault, remark),
        None => path_text(alloc, schema, query),
    }
}

fn selection_text(
    alloc: Global,
    schema: &Schema,
    selection: Selection,
) -> Result<String, AllocError>
    ensures { IfOk result (λ text. ExplainsQuery schema.now (asked schema.now selection) (string_bytes text)) }
{
    let remark = wrong_text(alloc, schema, &selection)?;
    let query = asked(alloc, schema, selection)?;
    query_text(alloc, schema, &query, remark)
}

fn text_under(
    alloc: Global,
    held: Option<&ServerLease>,
    selection: Selection,
) -> Result<String, AllocError>
    ensures { IfOk result (λ text. ExplainsUnder (option_map (λ h. h.now) held.entry) selection (string_bytes text)) }
{
    match held {
        Some(held) => selection_text(alloc, held.schema.get(), selection),
        None => "the server has no lease".to_string(alloc),
    }
}

// The line with a moment, if it has a colon: the path does not depend on the moment.
fn timed(alloc: Global, line: &str) -> Result<String, AllocError>
    ensures { IfOk result (λ text. string_bytes text ≡ timed line.now) }
{
    match line.split_once(':') {
        Some((front, back)) => format!(in alloc; "{front} at 0:{back}"),
        None => line.to_string(alloc),
    }
}

// What the line parses to, or, if it is no command, the line with a moment.
fn explained(alloc: Global, line: &str) -> Result<Command, LineFault>
    ensures { GivesOr Memory (λ command. command) result (explained line.now) }
{
    match read_command(alloc, line.as_bytes()) {
        Err(LineFault::Malformed) => {
            let line = timed(alloc, line)?;
            read_command(alloc, line.as_str().as_bytes())
        }
        answer => answer,
    }
}

// The server and the selection, if the line is a query.
fn query_of(alloc: Global, line: &str) -> Result<Option<(Text, Selection)>, AllocError>
    ensures { IfOk result (λ found. found ≡ query_of (explained line.now)) }
{
    match explained(alloc, line) {
        Ok(
            Command::Query {
                server,
                selection,
                ..
            },
        ) => Ok(Some((server, selection))),
        Err(LineFault::Memory) => Err(AllocError),
        _ => Ok(None),
    }
}

/// The path of a query under its server's lease, by the schema of that lease's version; or, if it
/// names what is not there or compares with a value of another type, its refusal, and what is wrong
/// with it on a line of its own. If the server has no lease, that it has none; if the line is no query, the form of the line. Refused only when out of
/// memory.
///
/// - `opened`: the world and the leases, which are only read.
/// - `line`: the query's line, whose `at M` may be left out.
pub fn explanation(alloc: Global, opened: &Opened, line: &str) -> Result<String, AllocError>
    ensures { IfOk result (λ text. Explains opened.now (query_of (explained line.now)) (string_bytes text)) }
{
    match query_of(alloc, line)? {
        Some((server, selection)) => {
            text_under(alloc, opened.leases.get(server.as_bytes()), selection)
        }
        None => "explain query SERVER: select .. from TABLE where ..".to_string(alloc),
    }
}
