//! The kinds of columns that a script's lines add.
ghost use Rattle.std.specs.Prelude.{◌≡◌};
ghost use Rattle.script_names.specs.Kinds.{column_kind};

use keycode::Value;
use row_map::ColumnType;
use schema_version::Kind;

/// The kind of a new column of this type: required if it has a default, else optional.
pub(crate) fn column_kind(column_type: ColumnType, fallback: Option<Value>) -> Kind
    ensures { result ≡ column_kind column_type fallback }
{
    match fallback {
        Some(fallback) => Kind::Required {
            column: column_type,
            fallback,
        },
        None => Kind::Optional(column_type),
    }
}
