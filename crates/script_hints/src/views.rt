//! Where things stand: the lines of the prompt that no script has.
ghost use Rattle.std.specs.Prelude.{IfOk, option_map, string_bytes};
ghost use Rattle.script_progress.specs.Check.{ShowsCheck, ShowsCheckIn};
ghost use Rattle.script_progress.specs.Explain.{ShowsPath, ShowsPathIn};

use crate::command_help::help_text;
use crate::explain_plan::plan_explanation;
use crate::hint::NOT_OPEN;
use keycode::Text;
use script_progress::script_session::{Opened, Session};
use script_progress::script_views::{explanation, named_pairs, named_view};
use script_progress::{description, leases_text, plan_left, progress, timeline};
use script_rows::rows_view;
use std::alloc::{AllocError, Global};

/// What may be explained.
const EXPLAINED: &str =
    "only a query and a plan are explained: explain query SERVER: select .. from TABLE where .., \
    explain plan: CHANGES";

// `check TABLE.NAME` with white space around its names; `None` if the words are no such name.
fn element_view(alloc: Global, opened: &Opened, name: &str) -> Result<Option<String>, AllocError> {
    let Some((table, name)) = name.split_once('.') else {
        return Ok(None);
    };
    let (table, name) = (table.trim(), name.trim());
    if table.contains(' ') || name.contains(' ') {
        return Ok(None);
    }
    Ok(Some(named_pairs(alloc, opened, table, name)?))
}

// A view of an opened world; `None` if the words are none of the prompt's.
fn opened_view(
    alloc: Global,
    opened: &Opened,
    gone: &[(u32, Text)],
    line: &str,
    is_shown: bool,
) -> Result<Option<String>, AllocError> {
    let (command, rest) = line.split_once(' ').unwrap_or((line, ""));
    match (command, rest.trim()) {
        ("help", command) => Ok(Some(help_text(alloc, command)?)),
        ("describe", table) => Ok(Some(description(alloc, &opened.world, table)?)),
        ("check", name) => element_view(alloc, opened, name),
        ("leases", "") => Ok(Some(leases_text(alloc, opened)?)),
        ("progress", "") => Ok(Some(progress(alloc, opened, is_shown)?)),
        ("plan", "") => Ok(Some(plan_left(alloc, opened)?)),
        ("rows", _) => Ok(Some(rows_view(alloc, opened, line)?)),
        ("timeline", "") => Ok(Some(timeline(alloc, opened, gone, is_shown)?)),
        ("explain", line) if line.starts_with("plan") => {
            Ok(Some(plan_explanation(alloc, opened, line)?))
        }
        ("explain", words) if !words.is_empty() && !words.starts_with("query") => {
            Ok(Some(EXPLAINED.to_string(alloc)?))
        }
        ("explain", query) => Ok(Some(explanation(alloc, opened, query)?)),
        _ => Ok(None),
    }
}

// A view without line ends after it.
fn trimmed(alloc: Global, view: Option<String>) -> Result<Option<String>, AllocError> {
    match view {
        Some(text) => Ok(Some(text.as_str().trim_end().to_string(alloc)?)),
        None => Ok(None),
    }
}

// The view of an opened world, by the words of the line.
fn view_by_words(
    alloc: Global,
    opened: &Opened,
    gone: &[(u32, Text)],
    line: &str,
    is_shown: bool,
) -> Result<Option<String>, AllocError> {
    let view = opened_view(alloc, opened, gone, line, is_shown)?;
    trimmed(alloc, view)
}

// The view after `open`: one that is proved, or else by the words.
fn running_view(
    alloc: Global,
    opened: &Opened,
    gone: &[(u32, Text)],
    line: &str,
    is_shown: bool,
) -> Result<Option<String>, AllocError>
    ensures path { IfOk result (λ shown. ShowsPathIn opened.now line.now (option_map string_bytes shown)) }
    ensures check { IfOk result (λ shown. ShowsCheckIn opened.now line.now (option_map string_bytes shown)) }
{
    match named_view(alloc, opened, line)? {
        Some(text) => Ok(Some(text)),
        None => view_by_words(alloc, opened, gone, line, is_shown),
    }
}

// The view before `open`.
fn declaring_view(alloc: Global, line: &str) -> Result<Option<String>, AllocError> {
    let (command, rest) = line.split_once(' ').unwrap_or((line, ""));
    match command {
        "help" => {
            let text = help_text(alloc, rest.trim())?;
            trimmed(alloc, Some(text))
        }
        "describe"
        | "leases"
        | "progress"
        | "rows"
        | "timeline"
        | "explain"
        | "check"
        | "advance"
        | "finish" => Ok(Some(NOT_OPEN.to_string(alloc)?)),
        _ => Ok(None),
    }
}

/// What a line of the prompt's own shows: `help`, `describe`, `leases`, `progress`, `rows`,
/// `timeline`, `plan` alone, `check TABLE.NAME`, `explain query` and `explain plan`; `None` if the line is none
/// of them. White space around the line does not matter. Refused only when out of memory.
///
/// - `session`: the session, which is only read.
/// - `gone`: names of elements that have left, by their numbers.
/// - `line`: the line without its ending.
/// - `is_shown`: whether someone sees it on a terminal: `progress` and `timeline` have bars then.
pub fn view_of(
    alloc: Global,
    session: &Session,
    gone: &[(u32, Text)],
    line: &str,
    is_shown: bool,
) -> Result<Option<String>, AllocError>
    ensures path { IfOk result (λ shown. ShowsPath session.now line.now (option_map string_bytes shown)) }
    ensures check { IfOk result (λ shown. ShowsCheck session.now line.now (option_map string_bytes shown)) }
{
    let line = line.trim();
    match session {
        Session::Running(opened) => running_view(alloc, opened, gone, line, is_shown),
        Session::Declaring(_) => declaring_view(alloc, line),
    }
}
