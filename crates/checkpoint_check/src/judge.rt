//! Whether a pair is one that a version allows.
ghost use Rattle.std.specs.Prelude.{◌≡◌, ◌==◌, ℕ, IfOk, IfSome, Some, length, drop, count_by, option_map};
ghost use Rattle.std.specs.Cmp.Lexicographic.{pointwise};
ghost use Rattle.std.specs.Option.{option_copied};
ghost use Rattle.keycode.specs.Valid.{AreShort, AreValues};
ghost use Rattle.row_map.specs.Keys.{IsKey};
ghost use Rattle.row_map.specs.Shape.{has_type};
ghost use Rattle.schema_version.specs.Version.{live};
ghost use Rattle.audit.specs.Audit.{is_absent as is_absent_of, is_same_pair as is_same_pair_of};
ghost use Rattle.checkpoint_check.specs.inner.Judged.{types_of, is_key_for as is_key_for_of, key_columns, lacks as lacks_of, count_lacking as count_lacking_of, is_good_row as is_good_row_of, is_given as is_given_of, is_column_pair as is_column_pair_of, is_index_pair as is_index_pair_of, judged_by, judged as judged_of};
ghost use Rattle.checkpoint_check.specs.inner.Made.{definition_of, definition_in, IsMade, AreMade};

use crate::made::{Made, find_element, own_pair};
use crate::row::stored_row;
use audit::{is_row, key_of};
use byte_map::Bytes;
use keycode::{Text, Value};
use row_map::{ColumnType, KeyOf, Near, PairView, Row, fits};
use schema_version::Schema;
use std::alloc::{AllocError, Global};

// Whether there is a pair that the store lacks, or has with another value.
pub(crate) fn is_absent<V: PairView>(view: &V, pair: &Option<(Bytes, Bytes)>) -> bool
    ensures { result ≡ is_absent_of (V.pairs view.now) pair.now }
{
    match pair {
        None => false,
        Some((key, value)) => match view.get(key.as_slice()) {
            None => true,
            Some(found) => found != value.as_slice(),
        },
    }
}

// Whether an element is a public one of the table, and the store lacks its pair of a row.
fn lacks<V: PairView>(
    alloc: Global,
    schema: &Schema,
    view: &V,
    table: u32,
    row: &Row,
    made: &Made<'_>,
) -> Result<bool, AllocError>
    requires { IsMade schema.now made.now }
    ensures { IfOk result (λ lacks. lacks ≡ lacks_of schema.now (V.pairs view.now) table row.now (definition_of made.now)) }
{
    let element = made.definition;
    if element.table != table || !element.state.is_public() {
        return Ok(false);
    }
    let pair = own_pair(alloc, made, row)?;
    Ok(is_absent(view, &pair))
}

// How many public elements lack their pair of a row.
fn count_lacking<V: PairView>(
    alloc: Global,
    schema: &Schema,
    view: &V,
    elements: &[Made<'_>],
    table: u32,
    row: &Row,
) -> Result<u64, AllocError>
    requires { AreMade schema.now elements.now }
    ensures { IfOk result (λ count. count ≡ count_by (lacks_of schema.now (V.pairs view.now) table row.now) (live schema.now)) }
{
    let mut count = 0u64;
    for made in elements {
        count += u64::from(lacks(alloc, schema, view, table, row, made)?);
    }
    Ok(count)
}

// Whether these are values of the types of a key's columns.
fn is_key_of(columns: &[(Text, ColumnType)], key: &[Value]) -> bool
    ensures { result ≡ pointwise has_type (types_of columns.now) key.now }
{
    if columns.len() != key.len() {
        return false;
    }
    for i in 0..key.len() {
        if !fits(columns[i].1, &key[i]) {
            return false;
        }
    }
    true
}

// Whether they are such values of a table of the version.
fn is_key_for(schema: &Schema, table: u32, key: &[Value]) -> bool
    ensures { result ≡ is_key_for_of (key_columns schema.now table) key.now }
{
    match schema.key_of(table) {
        None => false,
        Some(columns) => is_key_of(columns, key),
    }
}

// Whether an `exists` pair is that of a row of a table of the version, of which public elements
// have all their pairs.
fn is_good_row<V: PairView>(
    alloc: Global,
    schema: &Schema,
    newest: &Schema,
    view: &V,
    near: &mut Near,
    elements: &[Made<'_>],
    table: u32,
    key: &[Value],
    value: &[u8],
) -> Result<bool, AllocError>
    requires { AreMade schema.now elements.now }
    ensures { IfOk result (λ good. good ≡ is_good_row_of schema.now newest.now (V.pairs view.now) table key.now value.now) }
{
    if value.len() != 0 || !is_key_for(schema, table, key) {
        return Ok(false);
    }
    let row = stored_row(alloc, newest, view, near, table, key)?;
    let count = count_lacking(alloc, schema, view, elements, table, &row)?;
    Ok(count == 0)
}

// Whether there is a pair, and it is this one.
fn is_same_pair(own: &Option<(Bytes, Bytes)>, pair: (&[u8], &[u8])) -> bool
    ensures { result ≡ is_same_pair_of own.now (pair.entry.0.now, pair.entry.1.now) }
{
    match own {
        None => false,
        Some((key, value)) => key.as_slice() == pair.0 && value.as_slice() == pair.1,
    }
}

// Whether a row of its table is stored that gives the element this pair.
fn is_given<V: PairView>(
    alloc: Global,
    schema: &Schema,
    newest: &Schema,
    view: &V,
    near: &mut Near,
    made: &Made<'_>,
    primary: &[Value],
    pair: (&[u8], &[u8]),
) -> Result<bool, AllocError>
    requires made { IsMade schema.now made.now }
    requires values { AreValues primary.now }
    requires short { AreShort primary.now }
    ensures { IfOk result (λ given. given ≡ is_given_of schema.now newest.now (V.pairs view.now) primary.now (pair.entry.0.now, pair.entry.1.now) (definition_of made.now)) }
{
    let table = made.definition.table;
    if !is_row(alloc, view, near, table, primary)? {
        return Ok(false);
    }
    let row = stored_row(alloc, newest, view, near, table, primary)?;
    let own = own_pair(alloc, made, &row)?;
    Ok(is_same_pair(&own, pair))
}

// The values after the first `n`.
fn values_after(values: &[Value], n: usize) -> &[Value]
    ensures { result.now ≡ drop n values.now }
{
    &values[n.min(values.len())..]
}

// Whether the pair is one of a column, given by the row of this key.
fn is_column_pair<V: PairView>(
    alloc: Global,
    schema: &Schema,
    newest: &Schema,
    view: &V,
    near: &mut Near,
    found: Option<&Made<'_>>,
    primary: &[Value],
    pair: (&[u8], &[u8]),
) -> Result<bool, AllocError>
    requires made { IfSome (option_copied found) (IsMade schema.now) }
    requires values { AreValues primary.now }
    requires short { AreShort primary.now }
    ensures { IfOk result (λ given. given ≡ is_column_pair_of schema.now newest.now (V.pairs view.now) primary.now (pair.entry.0.now, pair.entry.1.now) (definition_in (option_copied found.entry))) }
{
    match found {
        None => Ok(false),
        Some(made) => is_given(alloc, schema, newest, view, near, made, primary, pair),
    }
}

// Whether the pair is one of an index, given by the row whose key comes after the indexed values.
fn is_index_pair<V: PairView>(
    alloc: Global,
    schema: &Schema,
    newest: &Schema,
    view: &V,
    near: &mut Near,
    found: Option<&Made<'_>>,
    values: &[Value],
    pair: (&[u8], &[u8]),
) -> Result<bool, AllocError>
    requires made { IfSome (option_copied found) (IsMade schema.now) }
    requires values { AreValues values.now }
    requires short { AreShort values.now }
    ensures { IfOk result (λ given. given ≡ is_index_pair_of schema.now newest.now (V.pairs view.now) values.now (pair.entry.0.now, pair.entry.1.now) (definition_in (option_copied found.entry))) }
{
    match found {
        None => Ok(false),
        Some(made) => {
            let primary = values_after(values, made.definition.kind.indexed_columns().len());
            is_given(alloc, schema, newest, view, near, made, primary, pair)
        }
    }
}

// Whether a pair is one that the version allows, by what its key is of.
fn judge_by<V: PairView>(
    alloc: Global,
    schema: &Schema,
    newest: &Schema,
    view: &V,
    near: &mut Near,
    elements: &[Made<'_>],
    read: &Option<KeyOf>,
    pair: (&[u8], &[u8]),
) -> Result<bool, AllocError>
    requires made { AreMade schema.now elements.now }
    requires keyed { IfSome read.now IsKey }
    ensures { IfOk result (λ good. good ≡ judged_by schema.now newest.now (V.pairs view.now) (pair.entry.0.now, pair.entry.1.now) read.now) }
{
    match read {
        None => Ok(false),
        Some(KeyOf::Exists { table, key }) => is_good_row(
            alloc,
            schema,
            newest,
            view,
            near,
            elements,
            *table,
            key.as_slice(),
            pair.1,
        ),
        Some(KeyOf::Column { key, element, .. }) => {
            let found = find_element(elements, *element);
            is_column_pair(
                alloc,
                schema,
                newest,
                view,
                near,
                found,
                key.as_slice(),
                pair,
            )
        }
        Some(KeyOf::Index { element, values }) => {
            let found = find_element(elements, *element);
            is_index_pair(
                alloc,
                schema,
                newest,
                view,
                near,
                found,
                values.as_slice(),
                pair,
            )
        }
    }
}

// Whether a pair is one that the version allows.
pub(crate) fn judge_pair<V: PairView>(
    alloc: Global,
    schema: &Schema,
    newest: &Schema,
    view: &V,
    near: &mut Near,
    elements: &[Made<'_>],
    pair: (&[u8], &[u8]),
) -> Result<bool, AllocError>
    requires { AreMade schema.now elements.now }
    ensures { IfOk result (λ good. good ≡ judged_of schema.now newest.now (V.pairs view.now) (pair.entry.0.now, pair.entry.1.now)) }
{
    let read = key_of(alloc, pair.0)?;
    judge_by(alloc, schema, newest, view, near, elements, &read, pair)
}
