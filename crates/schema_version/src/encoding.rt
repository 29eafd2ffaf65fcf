//! The encoding of a version as one string of bytes. Two versions are compared by it in one look.
ghost use Rattle.std.specs.Prelude.{◌≡◌, ◌++◌, OnOk, IfOk};
ghost use Rattle.std.specs.Bool.{Decides};
ghost use Rattle.std.specs.Map.{keys_of, values_of};
ghost use Rattle.std.specs.String.{string_bytes};
ghost use mathlib.Core.List.{map as each};
ghost use Rattle.schema_version.specs.inner.Encoding.{word as word_of, after_one, items_bytes, name_bytes, type_byte as type_byte_of, column_bytes, key_bytes, kind_bytes, state_byte as state_byte_of, way_byte as way_byte_of, element_bytes, parts_bytes};

use crate::element::{ElementDef, ElementState, Kind, Way};
use crate::table::Columns;
use byte_map::words;
use indexmap::IndexMap;
use keycode::{Text, push_value};
use row_map::ColumnType;
use std::alloc::{AllocError, Global};

// The room that an encoding begins with, in bytes: that of a table or two. It shows in the speed alone.
const ROOM: usize = 256;

// The four bytes of a number, the highest first.
fn word(n: u32) -> [u8; 4]
    ensures { result ≡ word_of n }
{
    [
        (n / 256 / 256 / 256) as u8,
        (n / 256 / 256 % 256) as u8,
        (n / 256 % 256) as u8,
        (n % 256) as u8,
    ]
}

fn push_word(out: &mut Vec<u8>, n: u32) -> Result<(), AllocError>
    ensures { OnOk result (out.new.items ≡ out.old.items ++ word_of n) }
{
    out.extend_from_slice(&word(n))
}

fn push_name(out: &mut Vec<u8>, name: &[u8]) -> Result<(), AllocError>
    ensures { OnOk result (out.new.items ≡ out.old.items ++ name_bytes name.now) }
{
    for b in name {
        out.push(1)?;
        out.push(*b)?;
    }
    out.push(0)?;
    Ok(())
}

fn type_byte(column: ColumnType) -> u8
    ensures { result ≡ type_byte_of column }
{
    match column {
        ColumnType::Int => 0,
        ColumnType::Text => 1,
        ColumnType::Bool => 2,
    }
}

fn push_column(out: &mut Vec<u8>, column: &(Text, ColumnType)) -> Result<(), AllocError>
    ensures { OnOk result (out.new.items ≡ out.old.items ++ after_one column_bytes column.now) }
{
    out.push(1)?;
    push_name(out, column.0.as_bytes())?;
    out.push(type_byte(column.1))?;
    Ok(())
}

fn push_columns(out: &mut Vec<u8>, columns: &[(Text, ColumnType)]) -> Result<(), AllocError>
    ensures { OnOk result (out.new.items ≡ out.old.items ++ key_bytes columns.now) }
{
    for column in columns {
        push_column(out, column)?;
    }
    out.push(0)?;
    Ok(())
}

fn push_key(out: &mut Vec<u8>, key: &Columns) -> Result<(), AllocError>
    ensures { OnOk result (out.new.items ≡ out.old.items ++ after_one key_bytes key.now) }
{
    out.push(1)?;
    push_columns(out, key.as_slice())
}

fn push_keys(out: &mut Vec<u8>, keys: &[Columns]) -> Result<(), AllocError>
    ensures { OnOk result (out.new.items ≡ out.old.items ++ items_bytes key_bytes keys.now) }
{
    for key in keys {
        push_key(out, key)?;
    }
    out.push(0)?;
    Ok(())
}

fn push_table_name(out: &mut Vec<u8>, name: &String) -> Result<(), AllocError>
    ensures { OnOk result (out.new.items ≡ out.old.items ++ after_one name_bytes (string_bytes name.now)) }
{
    out.push(1)?;
    push_name(out, name.as_bytes())
}

fn push_table_names(out: &mut Vec<u8>, names: &[String]) -> Result<(), AllocError>
    ensures { OnOk result (out.new.items ≡ out.old.items ++ items_bytes name_bytes (each string_bytes names.now)) }
{
    for name in names {
        push_table_name(out, name)?;
    }
    out.push(0)?;
    Ok(())
}

fn push_numbers(out: &mut Vec<u8>, numbers: &[u32]) -> Result<(), AllocError>
    ensures { OnOk result (out.new.items ≡ out.old.items ++ items_bytes word_of numbers.now) }
{
    for n in numbers {
        out.push(1)?;
        push_word(out, *n)?;
    }
    out.push(0)?;
    Ok(())
}

fn push_kind(out: &mut Vec<u8>, kind: &Kind) -> Result<(), AllocError>
    ensures { OnOk result (out.new.items ≡ out.old.items ++ kind_bytes kind.now) }
{
    match kind {
        Kind::Index(columns) => {
            out.push(0)?;
            push_numbers(out, columns.as_slice())?;
        }
        Kind::Optional(column) => {
            out.push(1)?;
            out.push(type_byte(*column))?;
        }
        Kind::Required { column, fallback } => {
            out.push(2)?;
            out.push(type_byte(*column))?;
            push_value(out, fallback)?;
        }
    }
    Ok(())
}

fn state_byte(state: ElementState) -> u8
    ensures { result ≡ state_byte_of state }
{
    match state {
        ElementState::Absent => 0,
        ElementState::DeleteOnly => 1,
        ElementState::WriteOnly => 2,
        ElementState::Public => 3,
    }
}

fn way_byte(way: Way) -> u8
    ensures { result ≡ way_byte_of way }
{
    match way {
        Way::Adding => 0,
        Way::Dropping => 1,
    }
}

fn push_element(out: &mut Vec<u8>, element: &ElementDef) -> Result<(), AllocError>
    ensures { OnOk result (out.new.items ≡ out.old.items ++ after_one element_bytes element.now) }
{
    out.push(1)?;
    push_word(out, element.number)?;
    push_word(out, element.table)?;
    push_name(out, element.name.as_bytes())?;
    push_kind(out, &element.kind)?;
    out.push(state_byte(element.state))?;
    out.push(way_byte(element.way))?;
    Ok(())
}

fn push_elements(out: &mut Vec<u8>, elements: &[ElementDef]) -> Result<(), AllocError>
    ensures { OnOk result (out.new.items ≡ out.old.items ++ items_bytes element_bytes elements.now) }
{
    for element in elements {
        push_element(out, element)?;
    }
    out.push(0)?;
    Ok(())
}

/// The encoding of the version that has these tables, elements and next free number. Refused only
/// when out of memory.
pub(crate) fn encode(
    alloc: Global,
    tables: &IndexMap<String, Columns>,
    elements: &IndexMap<u32, ElementDef>,
    next: u32,
) -> Result<Vec<u8>, AllocError>
    ensures { IfOk result (λ bytes. bytes.items ≡ parts_bytes (each string_bytes (keys_of tables.now.entries)) (values_of tables.now.entries) (values_of elements.now.entries) next) }
{
    let mut out = Vec::with_capacity(alloc, ROOM)?;
    push_word(&mut out, next)?;
    push_table_names(&mut out, tables.keys().as_slice())?;
    push_keys(&mut out, tables.values().as_slice())?;
    push_elements(&mut out, elements.values().as_slice())?;
    Ok(out)
}

/// Whether these are the same bytes.
pub(crate) fn same_bytes(a: &[u8], b: &[u8]) -> bool
    ensures { Decides result (a.now ≡ b.now) }
{
    words::is_same(a, b)
}
