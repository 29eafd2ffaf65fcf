//! The begin of a reorganisation, and its working off.
ghost use Rattle.std.specs.Prelude.{◌≡◌, ◌++◌, IfOk, OnOk, codes, string_bytes};
ghost use Rattle.std.specs.Fmt.{decimal};
ghost use Rattle.std.specs.Option.{option_and_then};
ghost use Rattle.schema_version.specs.Edges.{wanted_work};
ghost use Rattle.schema_version.specs.Version.{element_at};
ghost use Rattle.script_replies.specs.Reorganisations.{begin_name, begun_words, want_word, work_word, work_name, worked_text};
ghost use Rattle.script_replies.specs.Texts.{line};

use crate::numbers::push_number;
use crate::pieces::{push_piece, push_read};
use piece_work::WorkFault;
use piece_work::world::{BeginFault, Receipt};
use schema_version::{Schema, Work};
use std::alloc::{AllocError, Global};

fn push_begin(out: &mut String, fault: BeginFault) -> Result<(), AllocError>
    ensures { OnOk result (string_bytes out.new ≡ string_bytes out.old ++ begin_name fault) }
{
    match fault {
        BeginFault::MomentTooLarge => out.push_str("MomentTooLarge"),
        BeginFault::NotWanted => out.push_str("NotWanted"),
        BeginFault::StillUsed { until } => {
            out.push_str("StillUsed ")?;
            push_number(out, until)
        }
        BeginFault::Begun => out.push_str("Begun"),
        BeginFault::BadCount => out.push_str("BadCount"),
        BeginFault::Memory => out.push_str("Memory"),
    }
}

fn want_word(work: Option<Work>) -> &'static str
    ensures { result.now ≡ want_word work }
{
    match work {
        Some(Work::Fill) => "fill",
        Some(Work::Clear) => "clear",
        None => "clear",
    }
}

// What the live element of this number wants.
fn find_wanted(schema: &Schema, number: u32) -> Option<Work>
    ensures { result ≡ option_and_then wanted_work (element_at schema.now number) }
{
    schema.element(number)?.wanted_work()
}

/// The word for what an element wants: `fill` or `clear`.
///
/// - `schema`: the version that has the element.
/// - `number`: the number of the element. None that isn't live, or wants nothing, is ever begun:
///   its word is `clear`.
pub fn work_word(schema: &Schema, number: u32) -> &'static str
    ensures { result.now ≡ work_word (element_at schema.now number) }
{
    want_word(find_wanted(schema, number))
}

fn push_begun(out: &mut String, word: &str, pieces: u32) -> Result<(), AllocError>
    ensures { OnOk result (string_bytes out.new ≡ string_bytes out.old ++ codes "ok begun " ++ word.now ++ codes " " ++ decimal pieces) }
{
    out.push_str("ok begun ")?;
    out.push_str(word)?;
    out.push_str(" ")?;
    push_number(out, u64::from(pieces))
}

/// The reply to the begin of a reorganisation: `ok begun WORD PIECES`, or a refusal as
/// `refused StillUsed UNTIL`.
///
/// - `word`: the word for what the element wants, `fill` or `clear`.
/// - `pieces`: the number of pieces.
/// - `begun`: the receipt for the entry, or why no reorganisation began.
pub fn begun_line(
    alloc: Global,
    word: &str,
    pieces: u32,
    begun: Result<Receipt, BeginFault>,
) -> Result<String, AllocError>
    ensures { IfOk result (λ text. string_bytes text ≡ line (begun_words word.now pieces begun)) }
{
    let mut text = String::new(alloc);
    match begun {
        Ok(_) => push_begun(&mut text, word, pieces)?,
        Err(fault) => {
            text.push_str("refused ")?;
            push_begin(&mut text, fault)?;
        }
    }
    text.push_str("\n")?;
    Ok(text)
}

fn push_work(out: &mut String, fault: &WorkFault) -> Result<(), AllocError>
    ensures { OnOk result (string_bytes out.new ≡ string_bytes out.old ++ work_name fault.now) }
{
    match fault {
        WorkFault::Read(fault) => push_read(out, *fault),
        WorkFault::Commit(fault) => push_piece(out, fault),
        WorkFault::Memory => out.push_str("Memory"),
    }
}

fn push_worked(out: &mut String, worked: &Result<u64, WorkFault>) -> Result<(), AllocError>
    ensures { OnOk result (string_bytes out.new ≡ string_bytes out.old ++ worked_text worked.now) }
{
    match worked {
        Ok(commits) => {
            out.push_str("ok work ")?;
            push_number(out, *commits)
        }
        Err(fault) => {
            out.push_str("refused ")?;
            push_work(out, fault)
        }
    }
}

/// The reply to a reorganisation that is run to its end: `ok work COMMITS`, or a refusal as
/// `refused NotWanted`.
///
/// - `worked`: the number of commits, or why it was not run to its end.
pub fn worked_line(alloc: Global, worked: &Result<u64, WorkFault>) -> Result<String, AllocError>
    ensures { IfOk result (λ text. string_bytes text ≡ line (worked_text worked.now)) }
{
    let mut text = String::new(alloc);
    push_worked(&mut text, worked)?;
    text.push_str("\n")?;
    Ok(text)
}
