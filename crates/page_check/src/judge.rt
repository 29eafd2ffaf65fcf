//! What one pair counts for.
ghost use Rattle.std.specs.Prelude.{◌≡◌, IfOk, Some, count_by};
ghost use Rattle.row_map.specs.declared.key.KeyOf.TheVariants.{Exists};
ghost use Rattle.audit.specs.Audit.{lacks as lacks_of, missing_by};
ghost use Rattle.page_check.specs.inner.Counted.{judged};

use crate::given::{given, is_absent};
use crate::reason::has_reason;
use audit::{CheckReport, key_of, row_at};
use keycode::Value;
use row_map::{KeyOf, Near, PairView, Row};
use schema_version::{ElementDef, Schema};
use std::alloc::{AllocError, Global};

// Whether an element is a public index or required column of the table, and the store lacks the pair
// that it gives the row.
fn lacks<V: PairView>(
    alloc: Global,
    schema: &Schema,
    view: &V,
    table: u32,
    row: &Row,
    element: &ElementDef,
) -> Result<bool, AllocError>
    ensures { IfOk result (λ lacks. lacks ≡ lacks_of schema.now (V.pairs view.now) table row.now element.now) }
{
    if element.table != table || !element.state.is_public() {
        return Ok(false);
    }
    let pair = given(alloc, schema, element, row)?;
    Ok(is_absent(view, &pair))
}

// How many public indexes and required columns lack their pair of a row.
fn count_lacking<V: PairView>(
    alloc: Global,
    schema: &Schema,
    view: &V,
    elements: &[ElementDef],
    table: u32,
    row: &Row,
) -> Result<u64, AllocError>
    ensures { IfOk result (λ count. count ≡ count_by (lacks_of schema.now (V.pairs view.now) table row.now) elements.now) }
{
    let mut count = 0u64;
    for element in elements {
        count += u64::from(lacks(alloc, schema, view, table, row, element)?);
    }
    Ok(count)
}

// How many they lack of the row of a primary key, as the store's pairs encode it.
fn missing_at<V: PairView>(
    alloc: Global,
    schema: &Schema,
    view: &V,
    table: u32,
    key: &[Value],
) -> Result<u64, AllocError>
    ensures { IfOk result (λ count. count ≡ missing_by schema.now (V.pairs view.now) (Some (Exists table key.now))) }
{
    let row = row_at(alloc, schema, view, &mut Near::new(), table, key)?;
    count_lacking(alloc, schema, view, schema.elements(), table, &row)
}

// The same, if the key is that of a row's `exists` pair; else there are none.
fn count_missing<V: PairView>(
    alloc: Global,
    schema: &Schema,
    view: &V,
    read: &Option<KeyOf>,
) -> Result<u64, AllocError>
    ensures { IfOk result (λ count. count ≡ missing_by schema.now (V.pairs view.now) read.now) }
{
    match read {
        Some(KeyOf::Exists { table, key }) => {
            missing_at(alloc, schema, view, *table, key.as_slice())
        }
        _ => Ok(0),
    }
}

// What one pair counts for.
pub(crate) fn judge_pair<V: PairView>(
    alloc: Global,
    schema: &Schema,
    view: &V,
    pair: (&[u8], &[u8]),
) -> Result<CheckReport, AllocError>
    ensures { IfOk result (λ report. report ≡ judged schema.now (V.pairs view.now) (pair.entry.0.now, pair.entry.1.now)) }
{
    let read = key_of(alloc, pair.0)?;
    let missing = count_missing(alloc, schema, view, &read)?;
    let has = has_reason(alloc, schema, view, &read, pair)?;
    Ok(CheckReport {
        rows: u64::from(matches!(read, Some(KeyOf::Exists { .. }))),
        missing,
        extra: u64::from(!has),
    })
}
