//! Values in a row.
ghost use Rattle.std.specs.Prelude.{◌≡◌, ◌++◌, OnOk, codes, string_bytes};
ghost use Rattle.std.specs.List.{flat_map};
ghost use mathlib.Core.List.{map};
ghost use Rattle.script_grammar.specs.Print.{value_text};
ghost use Rattle.script_session.specs.Rows.{joined};
ghost use Rattle.script_views.specs.Check.{tuple};

use keycode::Value;
use script_grammar::push_value;
use std::alloc::AllocError;

// Values, a comma before each.
fn push_more_values(out: &mut String, values: &[Value]) -> Result<(), AllocError>
    ensures { OnOk result (string_bytes out.new ≡ string_bytes out.old ++ flat_map (λ t. codes ", " ++ t) (map value_text values.now)) }
{
    for value in values {
        out.push_str(", ")?;
        push_value(out, value)?;
    }
    Ok(())
}

fn push_values(out: &mut String, values: &[Value]) -> Result<(), AllocError>
    ensures { OnOk result (string_bytes out.new ≡ string_bytes out.old ++ joined (map value_text values.now)) }
{
    let [first, others @ ..] = values else {
        return Ok(());
    };
    push_value(out, first)?;
    push_more_values(out, others)
}

/// Adds `(VALUE, VALUE)`, each value as the grammar has it. Refused only when out of memory; a part
/// of the tuple may be there then.
///
/// - `out`: the text after which it is put.
/// - `values`: the values.
pub fn push_tuple(out: &mut String, values: &[Value]) -> Result<(), AllocError>
    ensures { OnOk result (string_bytes out.new ≡ string_bytes out.old ++ tuple values.now) }
{
    out.push_str("(")?;
    push_values(out, values)?;
    out.push_str(")")
}
