//! The pairs of a world, and the report of a check.
ghost use Rattle.std.specs.Prelude.{◌≡◌, ◌++◌, IfOk, OnOk, string_bytes};
ghost use Rattle.script_replies.specs.Texts.{line, value_behind, pair_line, check_text};

use crate::numbers::push_number;
use piece_work::world::CheckReport;
use script_grammar::push_hex;
use std::alloc::{AllocError, Global};

fn push_value(text: &mut String, value: &[u8]) -> Result<(), AllocError>
    ensures { OnOk result (string_bytes text.new ≡ string_bytes text.old ++ value_behind value.now) }
{
    if value.is_empty() {
        return Ok(());
    }
    text.push_str(" = ")?;
    push_hex(text, value)
}

/// Adds the line of a pair: `KEY = VALUE` in hexadecimal, or `KEY` if the value is empty.
///
/// - `text`: the text after which the line is put.
/// - `key`: the key of the pair.
/// - `value`: its value.
///
/// The only refusal is running out of memory; it may leave a part of the line after the text.
pub fn push_pair(text: &mut String, key: &[u8], value: &[u8]) -> Result<(), AllocError>
    ensures { OnOk result (string_bytes text.new ≡ string_bytes text.old ++ pair_line (key.now, value.now)) }
{
    push_hex(text, key)?;
    push_value(text, value)?;
    text.push_str("\n")
}

/// The reply to a check: `ok rows R missing M extra X`.
///
/// - `report`: what the check counted.
pub fn check_line(alloc: Global, report: CheckReport) -> Result<String, AllocError>
    ensures { IfOk result (λ text. string_bytes text ≡ line (check_text report)) }
{
    let mut text = String::new(alloc);
    text.push_str("ok rows ")?;
    push_number(&mut text, report.rows)?;
    text.push_str(" missing ")?;
    push_number(&mut text, report.missing)?;
    text.push_str(" extra ")?;
    push_number(&mut text, report.extra)?;
    text.push_str("\n")?;
    Ok(text)
}
