//! How an element is named.
ghost use Rattle.std.specs.Prelude.{◌≡◌, ◌++◌, OnOk, string_bytes};
ghost use Rattle.schema_version.specs.Version.{table_at};
ghost use Rattle.script_session.specs.PlanLines.{dotted, name_or_empty};
ghost use Rattle.script_views.specs.Names.{element_name};

use keycode::Text;
use schema_version::Schema;
use std::alloc::AllocError;

fn table_name(schema: &Schema, table: u32) -> &str
    ensures { result.now ≡ name_or_empty (table_at schema.now table) }
{
    match schema.table_name(table) {
        Some(name) => name,
        None => "",
    }
}

fn push_dotted(out: &mut String, schema: &Schema, table: u32, name: &Text) -> Result<(), AllocError>
    ensures { OnOk result (string_bytes out.new ≡ string_bytes out.old ++ dotted schema.now table name.now) }
{
    out.push_str(table_name(schema, table))?;
    out.push_str(".")?;
    out.push_str(name.as_str())
}

/// Adds `TABLE.NAME` of the live element of this number, or `element N` if there is none. Refused
/// only when out of memory; a part of the name may be there then.
///
/// - `out`: the text after which it is put.
/// - `schema`: the version.
/// - `number`: the number of the element.
pub fn push_element(out: &mut String, schema: &Schema, number: u32) -> Result<(), AllocError>
    ensures { OnOk result (string_bytes out.new ≡ string_bytes out.old ++ element_name schema.now number) }
{
    match schema.element(number) {
        Some(element) => push_dotted(out, schema, element.table, &element.name),
        None => write!(out, "element {number}"),
    }
}
