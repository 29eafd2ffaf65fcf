//! Going over a store's pairs and noting what one element lacks and has too much.
ghost use Rattle.std.specs.Prelude.{◌≡◌, ◌+◌, IfOk, OnOk, MatchOption, Some, None, length, []};
ghost use Rattle.std.specs.Option.{option_copied};
ghost use Rattle.std.specs.List.{cons_option};
ghost use Rattle.schema_version.specs.declared.element.ElementDef.{ElementDef};
ghost use Rattle.audit.specs.Audit.{numbered};
ghost use Rattle.audit.specs.Encoded.{key_read};
ghost use Rattle.element_check.specs.Check.{extra_key as extra_key_of, missing_row as missing_row_of, IsElementCheck};
ghost use Rattle.element_check.specs.inner.Made.{definition_of, IsMade};
ghost use Rattle.element_check.specs.inner.Judged.{kept, noted};

use crate::extra::extra_key;
use crate::made::{Made, make};
use crate::missing::missing_row;
use crate::report::ElementReport;
use audit::key_of;
use collections::List;
use keycode::Values;
use row_map::{KeyOf, Near, PairView};
use schema_version::{ElementDef, Schema};
use std::alloc::{AllocError, Global};

/// What one pair shows of an element.
#[derive(Drop)]
pub(crate) struct Judged {
    // The primary key of the pair's row, if it is an `exists` pair and the row lacks its pair of
    // the element.
    missing: Option<Values>,
    // The pair's key, if it is the element's and no row gives it.
    extra: Option<KeyOf>,
}

fn judge_pair<V: PairView>(
    alloc: Global,
    schema: &Schema,
    view: &V,
    near: &mut Near,
    made: &Made<'_>,
    pair: (&[u8], &[u8]),
) -> Result<Judged, AllocError>
    requires { IsMade schema.now made.now }
    ensures missing { IfOk result (λ judged. judged.missing ≡ missing_row_of schema.now (V.pairs view.now) (definition_of made.now) (key_read pair.entry.0.now)) }
    ensures extra { IfOk result (λ judged. judged.extra ≡ extra_key_of schema.now (V.pairs view.now) (definition_of made.now) (pair.entry.0.now, pair.entry.1.now)) }
{
    match key_of(alloc, pair.0)? {
        None => Ok(Judged {
            missing: None,
            extra: None,
        }),
        Some(KeyOf::Exists { table, key }) => Ok(Judged {
            missing: missing_row(alloc, schema, view, near, made, table, key)?,
            extra: None,
        }),
        Some(key) => Ok(Judged {
            missing: None,
            extra: extra_key(alloc, schema, view, near, made, key, pair)?,
        }),
    }
}

// Adds one to the count if something was found, and keeps it if fewer than `most` are kept. A count
// of 2^64, which no memory holds, is answered as out of memory.
fn keep<T: Drop>(
    count: &mut u64,
    first: &mut List<T>,
    most: usize,
    found: Option<T>,
) -> Result<(), AllocError>
    ensures count { OnOk result (count.new ≡ count.old + length (cons_option found [])) }
    ensures first { OnOk result (first.new ≡ kept most first.old found) }
{
    let Some(item) = found else {
        return Ok(());
    };
    let Some(sum) = count.checked_add(1) else {
        return Err(AllocError);
    };
    *count = sum;
    if first.len() < most {
        first.push(item)?;
    }
    Ok(())
}

fn note(report: &mut ElementReport, most: usize, judged: Judged) -> Result<(), AllocError>
    ensures { OnOk result (report.new ≡ noted most report.old judged) }
{
    keep(
        &mut report.missing,
        &mut report.missing_rows,
        most,
        judged.missing,
    )?;
    keep(
        &mut report.extra,
        &mut report.extra_keys,
        most,
        judged.extra,
    )
}

// What all pairs show of the element.
fn check_pairs<V: PairView>(
    alloc: Global,
    schema: &Schema,
    view: &V,
    made: &Made<'_>,
    most: usize,
) -> Result<ElementReport, AllocError>
    requires { IsMade schema.now made.now }
    ensures { IfOk result (λ report. IsElementCheck schema.now (V.pairs view.now) (definition_of made.now) most report) }
{
    let mut report = ElementReport {
        missing: 0,
        extra: 0,
        missing_rows: List::new(Vec::new(alloc)),
        extra_keys: List::new(Vec::new(alloc)),
    };
    // The pairs of a row are side by side.
    let mut near = Near::new();
    let mut walk = view.walk();
    while let Some(pair) = walk.next() {
        let judged = judge_pair(alloc, schema, view, &mut near, made, pair)?;
        note(&mut report, most, judged)?;
    }
    Ok(report)
}

// The live element of this number.
fn find_element(schema: &Schema, number: u32) -> Option<&ElementDef>
    ensures { option_copied result ≡ numbered schema.now number }
{
    schema
        .elements()
        .iter()
        .find(|element| element.number == number)
}

/// Checks one element, whatever its state: which rows of its table lack their pair of it, and which
/// pairs it has that no row gives it. `None` if no live element has the number.
///
/// A row is an `exists` pair, and its values are those of its table's public columns, as in an
/// audit. A row lacks its pair of an index if the store hasn't got the pair that it gives the index
/// with just its value, and that of a required column if the store has no value of the column's
/// type for it. It gives an optional column none. A pair of a column has a reason if the element is
/// a column of the pair's table and the row's `exists` pair is there, and a pair of an index if the
/// row of the primary key after the indexed values is there and gives the index just this pair.
///
/// - `schema`: the version by which the pairs are read.
/// - `view`: the store.
/// - `number`: the number of the element.
/// - `most`: how many rows and how many keys are kept at most, the first of each in the order of
///   the store's keys.
///
/// The only refusal is running out of memory. It takes time with all pairs of the store; an index
/// also looks up the public columns of each row of its table, and of each row that a pair of it
/// names.
pub fn check_element<V: PairView>(
    alloc: Global,
    schema: &Schema,
    view: &V,
    number: u32,
    most: usize,
) -> Result<Option<ElementReport>, AllocError>
    ensures { IfOk result (λ found. MatchOption found (numbered schema.now number ≡ None) (λ report. (element : ElementDef) × (numbered schema.now number ≡ Some element) × IsElementCheck schema.now (V.pairs view.now) element most report)) }
{
    let Some(element) = find_element(schema, number) else {
        return Ok(None);
    };
    let made = make(alloc, schema, element)?;
    Ok(Some(check_pairs(alloc, schema, view, &made, most)?))
}
