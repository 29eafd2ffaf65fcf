//! The lines that carry changes on: `advance` and `finish`.
ghost use Rattle.std.specs.Prelude.{◌≡◌, ◌++◌, IfOk, OnOk, Some, string_bytes};
ghost use Rattle.prompt.specs.Carry.{IsAdvanced, IsFinished, CarriesOn, act_words, advanced_words, carry_in, carry_word, fault_name, finished_words, moment_in, piece_word};
ghost use Rattle.script_json.specs.Texts.{line, refused};
ghost use Rattle.script_tokens.specs.Productions.{count_in};
ghost use Rattle.script_tokens.specs.Tokens.{tokens_of};

use collections::List;
use rollout::{AdvanceFault, Advanced, advance, complete};
use schema_version::Schema;
use script_json::script_session::Opened;
use script_json::script_views::push_element;
use script_tokens::{Token, is_word, tokens_of};
use std::alloc::{AllocError, Global};

/// In how many pieces a fill or a clear is begun.
const PIECES: u32 = 1;

/// How many items of a piece are worked at a time.
const LIMIT: u32 = 1_000;

/// What a line asks for.
#[derive(Clone, Copy, PartialEq, Eq)]
pub(crate) struct CarryLine {
    /// Whether all changes are brought to their end, by `finish`; or one act is done, by `advance`.
    pub(crate) is_finish: bool,
    /// The moment, if the line has one.
    pub(crate) at: Option<u64>,
}

fn carry_word(token: &Token<'_>) -> Option<bool>
    ensures { result ≡ carry_word token.now }
{
    if is_word(token, b"advance") {
        Some(false)
    } else if is_word(token, b"finish") {
        Some(true)
    } else {
        None
    }
}

fn count_in(token: &Token<'_>) -> Option<u64>
    ensures { result ≡ count_in token.now }
{
    match token {
        Token::Number {
            is_negative: false,
            size,
        } => Some(*size),
        _ => None,
    }
}

// The moment after the word, if there is one; `None` if there is something else.
fn moment_in(tokens: &[Token<'_>]) -> Option<Option<u64>>
    ensures { result ≡ moment_in tokens.now }
{
    match tokens {
        [] => Some(None),
        [word, number] => {
            if is_word(word, b"at") {
                Some(Some(count_in(number)?))
            } else {
                None
            }
        }
        _ => None,
    }
}

fn carry_in(tokens: &[Token<'_>]) -> Option<CarryLine>
    ensures { result ≡ carry_in (Some tokens.now) }
{
    let [word, tokens @ ..] = tokens else {
        return None;
    };
    let is_finish = carry_word(word)?;
    let at = moment_in(tokens)?;
    Some(CarryLine { is_finish, at })
}

/// What a line asks for, if it is `advance` or `finish`, alone or with `at M`. Refused only when out
/// of memory.
///
/// - `line`: the line without its ending.
pub(crate) fn carry_of(alloc: Global, line: &[u8]) -> Result<Option<CarryLine>, AllocError>
    ensures { IfOk result (λ found. found ≡ carry_in (tokens_of line.now)) }
{
    match tokens_of(alloc, line)? {
        Some(tokens) => Ok(carry_in(tokens.as_slice())),
        None => Ok(None),
    }
}

fn fault_name(fault: AdvanceFault) -> &'static str
    ensures { result.now ≡ fault_name fault }
{
    match fault {
        AdvanceFault::BadCount => "BadCount",
        AdvanceFault::MomentTooLarge => "MomentTooLarge",
        AdvanceFault::VersionsSpent => "VersionsSpent",
        AdvanceFault::Memory => "Memory",
    }
}

fn push_refused(out: &mut String, fault: AdvanceFault) -> Result<(), AllocError>
    ensures { OnOk result (string_bytes out.new ≡ string_bytes out.old ++ refused (fault_name fault)) }
{
    out.push_str("refused ")?;
    out.push_str(fault_name(fault))
}

fn piece_word(ended: bool) -> &'static str
    ensures { result.now ≡ piece_word ended }
{
    if ended { " done" } else { " more" }
}

fn push_act(out: &mut String, schema: &Schema, done: &Advanced) -> Result<(), AllocError>
    ensures { OnOk result (string_bytes out.new ≡ string_bytes out.old ++ act_words schema.now done.now) }
{
    match done {
        Advanced::Began { element, .. } => {
            out.push_str("ok begun ")?;
            push_element(out, schema, *element)
        }
        Advanced::Published { version, .. } => write!(out, "ok version {version}"),
        Advanced::Worked { element, done } => {
            out.push_str("ok piece ")?;
            push_element(out, schema, *element)?;
            out.push_str(piece_word(done.ended))
        }
        Advanced::Waiting { until } => write!(out, "ok waiting {until}"),
        Advanced::Finished => out.push_str("ok finished"),
    }
}

fn advanced_line(
    alloc: Global,
    schema: &Schema,
    outcome: &Result<Advanced, AdvanceFault>,
) -> Result<String, AllocError>
    ensures { IfOk result (λ text. string_bytes text ≡ line (advanced_words schema.now outcome.now)) }
{
    let mut text = String::new(alloc);
    match outcome {
        Ok(done) => push_act(&mut text, schema, done)?,
        Err(fault) => push_refused(&mut text, *fault)?,
    }
    text.push_str("\n")?;
    Ok(text)
}

fn finished_line(alloc: Global, outcome: Result<u64, AdvanceFault>) -> Result<String, AllocError>
    ensures { IfOk result (λ text. string_bytes text ≡ line (finished_words outcome)) }
{
    let mut text = String::new(alloc);
    match outcome {
        Ok(end) => write!(text, "ok finished {end}")?,
        Err(fault) => push_refused(&mut text, fault)?,
    }
    text.push_str("\n")?;
    Ok(text)
}

// `advance`: one act that is due is done, and the kept plan is forgotten.
fn advance_line(alloc: Global, opened: &mut Opened, moment: u64) -> Result<String, AllocError>
    ensures { IfOk result (λ text. IsAdvanced opened.old moment (string_bytes text) opened.new) }
{
    let outcome = advance(alloc, &mut opened.world, moment, PIECES, LIMIT);
    opened.plan = List::new(Vec::new(alloc));
    let text = advanced_line(alloc, opened.world.newest().get(), &outcome)?;
    Ok(text)
}

// `finish`: all changes are brought to their end, and the kept plan is forgotten.
fn finish_line(alloc: Global, opened: &mut Opened, moment: u64) -> Result<String, AllocError>
    ensures { IfOk result (λ text. IsFinished opened.old moment (string_bytes text) opened.new) }
{
    let outcome = complete(alloc, &mut opened.world, moment, PIECES, LIMIT);
    opened.plan = List::new(Vec::new(alloc));
    let text = finished_line(alloc, outcome)?;
    Ok(text)
}

/// Carries changes on as the line asks, and answers the reply. Refused only when out of memory;
/// discard the session then.
///
/// - `opened`: the opened session.
/// - `line`: the call, and its moment; without one it is that of the log's last entry.
pub(crate) fn carry_on(
    alloc: Global,
    opened: &mut Opened,
    line: CarryLine,
) -> Result<String, AllocError>
    ensures { IfOk result (λ text. CarriesOn opened.old line (string_bytes text) opened.new) }
{
    let moment = line.at.unwrap_or(opened.world.moment());
    if line.is_finish {
        finish_line(alloc, opened, moment)
    } else {
        advance_line(alloc, opened, moment)
    }
}
