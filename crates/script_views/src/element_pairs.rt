//! What one element lacks and has too much, by the keys of its rows.
ghost use Rattle.std.specs.Prelude.{◌≡◌, ◌++◌, IfOk, OnOk, codes, string_bytes};
ghost use Rattle.std.specs.List.{flat_map};
ghost use Rattle.std.specs.Option.{option_copied};
ghost use Rattle.audit.specs.Audit.{numbered};
ghost use Rattle.script_views.specs.Check.{ShowsElement, check_note, check_text, extra_line, key_tuple, missing_line, state_at, state_note};
ghost use Rattle.script_views.specs.Unknown.{SaysUnknown};

use crate::named::{missing_table, other_text};
use crate::tuples::push_tuple;
use element_check::{ElementReport, check_element};
use keycode::{Text, Values};
use row_map::KeyOf;
use schema_version::{ElementDef, ElementState, Schema};
use script_session::Opened;
use script_session::script_names::{element_number, table_number};
use std::alloc::{AllocError, Global};

/// How many rows and how many pairs are shown at most.
const SHOWN: usize = 20;

fn push_missing(out: &mut String, rows: &[Values]) -> Result<(), AllocError>
    ensures { OnOk result (string_bytes out.new ≡ string_bytes out.old ++ flat_map missing_line rows.now) }
{
    for row in rows {
        out.push_str("\nmissing ")?;
        push_tuple(out, row.as_slice())?;
    }
    Ok(())
}

fn push_key(out: &mut String, key: &KeyOf) -> Result<(), AllocError>
    ensures { OnOk result (string_bytes out.new ≡ string_bytes out.old ++ key_tuple key.now) }
{
    match key {
        KeyOf::Exists { key, .. } => push_tuple(out, key.as_slice()),
        KeyOf::Column { key, .. } => push_tuple(out, key.as_slice()),
        KeyOf::Index { values, .. } => push_tuple(out, values.as_slice()),
    }
}

fn push_extra(out: &mut String, keys: &[KeyOf]) -> Result<(), AllocError>
    ensures { OnOk result (string_bytes out.new ≡ string_bytes out.old ++ flat_map extra_line keys.now) }
{
    for key in keys {
        out.push_str("\nextra ")?;
        push_key(out, key)?;
    }
    Ok(())
}

// What there is to know of rows that lack their pair, by the element's state.
fn state_note(state: ElementState) -> &'static str
    ensures { result.now ≡ state_note state }
{
    match state {
        ElementState::DeleteOnly => {
            "\nmissing pairs are normal in delete_only: writers delete pairs, and write none"
        }
        ElementState::WriteOnly =>
            "\nmissing pairs are normal in write_only before a fill has ended",
        ElementState::Absent | ElementState::Public => "",
    }
}

fn push_note(out: &mut String, missing: u64, state: ElementState) -> Result<(), AllocError>
    ensures { OnOk result (string_bytes out.new ≡ string_bytes out.old ++ check_note missing state) }
{
    if missing == 0 {
        return Ok(());
    }
    out.push_str(state_note(state))
}

// The live element of this number.
fn find_element(schema: &Schema, number: u32) -> Option<&ElementDef>
    ensures { option_copied result ≡ numbered schema.now number }
{
    schema
        .elements()
        .iter()
        .find(|element| element.number == number)
}

// The state of an element; absent if there is none.
fn state_of(element: Option<&ElementDef>) -> ElementState
    ensures { result ≡ state_at (option_copied element.entry) }
{
    match element {
        Some(element) => element.state,
        None => ElementState::Absent,
    }
}

fn report_text(
    alloc: Global,
    table: &str,
    name: &str,
    state: ElementState,
    report: &ElementReport,
) -> Result<String, AllocError>
    ensures { IfOk result (λ text. string_bytes text ≡ check_text (table.now ++ codes "." ++ name.now) state report.now) }
{
    let (missing, extra) = (report.missing, report.extra);
    let mut out = format!(in alloc; "{table}.{name} missing {missing} extra {extra}")?;
    push_missing(&mut out, report.missing_rows.as_slice())?;
    push_extra(&mut out, report.extra_keys.as_slice())?;
    push_note(&mut out, missing, state)?;
    Ok(out)
}

// That the names are those of no element, and the nearest that is there.
fn unknown_text(
    alloc: Global,
    schema: &Schema,
    table: &Text,
    name: &Text,
) -> Result<String, AllocError>
    ensures { IfOk result (λ text. SaysUnknown schema.now table.now name.now (string_bytes text)) }
{
    match missing_table(alloc, schema, table)? {
        Some(out) => Ok(out),
        None => other_text(
            alloc,
            schema,
            table_number(schema, table),
            table.as_str(),
            name.as_str(),
        ),
    }
}

/// Which rows lack their pair of an element, and which pairs it has that no row gives it, by the
/// newest version and whatever the element's state: a count of both, the first 20 of each by their
/// keys, and if the state makes missing pairs normal, that it does. If there is no such element, that there is none, and the nearest. Refused only when
/// out of memory.
///
/// - `opened`: the world.
/// - `table`: the name of the table.
/// - `name`: the name of the element.
pub(crate) fn element_pairs(
    alloc: Global,
    opened: &Opened,
    table: &Text,
    name: &Text,
) -> Result<String, AllocError>
    ensures { IfOk result (λ text. ShowsElement opened.now.world table.now name.now (string_bytes text)) }
{
    let schema = opened.world.newest().get();
    let number = element_number(schema, table_number(schema, table), name);
    match check_element(alloc, schema, &opened.world, number, SHOWN)? {
        Some(report) => report_text(
            alloc,
            table.as_str(),
            name.as_str(),
            state_of(find_element(schema, number)),
            &report,
        ),
        None => unknown_text(alloc, schema, table, name),
    }
}
