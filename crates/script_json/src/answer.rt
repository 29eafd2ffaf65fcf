//! The one line of JSON that answers a line of input.
ghost use Rattle.std.specs.Prelude.{◌≡◌, ◌∷◌, ◌++◌, [], IfOk, OnOk, string_bytes};
ghost use mathlib.Core.List.{map};
ghost use Rattle.script_json.specs.Answer.{IsAnswerText, head_text, last_data, lines_data, lines_of, lines_text};
ghost use Rattle.script_rows.specs.Unknown.{StartsWith};
ghost use Rattle.serde_json.specs.Data.{string};
ghost use Rattle.serde_json.specs.View.{view};

use crate::object::{Object, put_list, put_text};
use serde_json::{Map, Value};
use std::alloc::{AllocError, Global};

/// What an answer has besides its reply and its remarks.
pub struct Details {
    /// The column of what is wrong with a bad line, in characters from 1, if it has one.
    pub column: Option<usize>,
    /// The facts behind a view, in JSON, if the line shows one.
    pub facts: Option<String>,
    /// What the line put and removed, in JSON, if it was given to an opened world.
    pub changes: Option<String>,
}

// By hand, so that a caller's proof sees one call and not each field's.
impl Drop for Details {
    fn drop(self) {
        let Details {
            column: _,
            facts: _,
            changes: _,
        } = self;
    }
}

fn push_line(alloc: Global, lines: &mut Vec<Value>, line: &str) -> Result<(), AllocError>
    ensures { OnOk result (map view lines.new.items ≡ map view lines.old.items ++ string line.now ∷ []) }
{
    let line = line.to_string(alloc)?;
    lines.push(Value::String(line))?;
    Ok(())
}

// What follows the last line feed is a line, unless it is empty.
fn push_last(alloc: Global, lines: &mut Vec<Value>, rest: &str) -> Result<(), AllocError>
    ensures { OnOk result (map view lines.new.items ≡ map view lines.old.items ++ last_data rest.now) }
{
    if rest.is_empty() {
        return Ok(());
    }
    push_line(alloc, lines, rest)
}

// The lines of a text, without their line feeds. What follows the last line feed is no line, if it is
// empty.
fn lines_of(alloc: Global, text: &str) -> Result<Vec<Value>, AllocError>
    ensures { IfOk result (λ lines. map view lines.items ≡ map string (lines_of text.now)) }
{
    let mut lines = Vec::new(alloc);
    let mut rest = text;
    while let Some((line, after)) = rest.split_once('\n') {
        push_line(alloc, &mut lines, line)?;
        rest = after;
    }
    push_last(alloc, &mut lines, rest)?;
    Ok(lines)
}

fn lines_value(alloc: Global, text: &str) -> Result<Value, AllocError>
    ensures { IfOk result (λ value. view value ≡ lines_data (lines_of text.now)) }
{
    let lines = lines_of(alloc, text)?;
    Ok(Value::Array(lines))
}

fn push_lines(alloc: Global, out: &mut String, text: &str) -> Result<(), AllocError>
    ensures { OnOk result (string_bytes out.new ≡ string_bytes out.old ++ lines_text text.now) }
{
    let list = lines_value(alloc, text)?.to_string(alloc)?;
    out.push_str(list.as_str())?;
    Ok(())
}

// The reply and the remarks.
fn head_of(alloc: Global, reply: &str, remark: &str) -> Result<String, AllocError>
    ensures { IfOk result (λ text. string_bytes text ≡ head_text reply.now remark.now) }
{
    let mut out = String::new(alloc);
    out.push_str("{\"reply\":")?;
    push_lines(alloc, &mut out, reply)?;
    out.push_str(",\"remarks\":")?;
    push_lines(alloc, &mut out, remark)?;
    Ok(out)
}

// A number or a key in hexadecimal after the name of a refusal.
fn refused_value(alloc: Global, word: &str) -> Result<Value, AllocError> {
    match word.parse::<u64>() {
        Ok(number) => Ok(Value::from(number)),
        Err(_) => Ok(Value::String(word.to_string(alloc)?)),
    }
}

fn refused_values(alloc: Global, words: &str) -> Result<Vec<Value>, AllocError> {
    let mut values = Vec::new(alloc);
    for word in words.split_whitespace() {
        values.push(refused_value(alloc, word)?)?;
    }
    Ok(values)
}

fn put_refusal(alloc: Global, out: &mut Object, refusal: &str) -> Result<(), AllocError> {
    let (name, words) = refusal.split_once(' ').unwrap_or((refusal, ""));
    put_text(alloc, out, "name", name)?;
    let values = refused_values(alloc, words)?;
    put_list(alloc, out, "values", values)
}

fn refusal_text(alloc: Global, refusal: &str) -> Result<String, AllocError> {
    let mut out = Map::new(alloc);
    put_refusal(alloc, &mut out, refusal)?;
    Value::Object(out).to_string(alloc)
}

// Adds the refusal that a reply is, with its numbers.
fn push_refusal(alloc: Global, out: &mut String, reply: &str) -> Result<(), AllocError>
    ensures { OnOk result (StartsWith (string_bytes out.old) (string_bytes out.new)) }
{
    let Some(refusal) = reply.strip_prefix("refused ") else {
        return Ok(());
    };
    let refusal = refusal_text(alloc, refusal.trim_end())?;
    out.push_str(",\"refused\":")?;
    out.push_str(refusal.as_str())
}

fn push_column(out: &mut String, column: Option<usize>) -> Result<(), AllocError>
    ensures { OnOk result (StartsWith (string_bytes out.old) (string_bytes out.new)) }
{
    match column {
        Some(column) => write!(out, ",\"column\":{column}"),
        None => Ok(()),
    }
}

fn push_facts(out: &mut String, facts: &Option<String>) -> Result<(), AllocError>
    ensures { OnOk result (StartsWith (string_bytes out.old) (string_bytes out.new)) }
{
    match facts {
        Some(facts) => {
            out.push_str(",\"facts\":")?;
            out.push_str(facts.as_str())
        }
        None => Ok(()),
    }
}

fn push_changes(out: &mut String, changes: &Option<String>) -> Result<(), AllocError>
    ensures { OnOk result (StartsWith (string_bytes out.old) (string_bytes out.new)) }
{
    match changes {
        Some(changes) => {
            out.push_str(",\"changes\":")?;
            out.push_str(changes.as_str())
        }
        None => Ok(()),
    }
}

// Adds all that is not the reply and the remarks.
fn push_others(
    alloc: Global,
    out: &mut String,
    reply: &str,
    details: &Details,
) -> Result<(), AllocError>
    ensures { OnOk result (StartsWith (string_bytes out.old) (string_bytes out.new)) }
{
    push_refusal(alloc, out, reply)?;
    push_column(out, details.column)?;
    push_facts(out, &details.facts)?;
    push_changes(out, &details.changes)?;
    out.push_str("}\n")
}

/// The answer to one line of input, as one line of JSON with its line feed: an object with these
/// members.
///
/// - `reply`: the lines of the reply.
/// - `remarks`: the lines of the remarks.
/// - `refused`: if the reply is a refusal, its `name`, and its `values`, each a number or, of a key, its
///   hexadecimal digits; else it is absent.
/// - `column`, `facts` and `changes`: as in the details, or absent.
///
/// Refused only when out of memory.
pub fn answer_text(
    alloc: Global,
    reply: &str,
    remark: &str,
    details: &Details,
) -> Result<String, AllocError>
    ensures { IfOk result (λ text. IsAnswerText reply.now remark.now (string_bytes text)) }
{
    let mut out = head_of(alloc, reply, remark)?;
    push_others(alloc, &mut out, reply, details)?;
    Ok(out)
}
