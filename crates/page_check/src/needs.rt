//! What to read besides a page.
ghost use Rattle.std.specs.Prelude.{◌≡◌, ◌++◌, [], IfOk, OnOk, option_map, filter_map};
ghost use Rattle.std.specs.List.{cons_option};
ghost use Rattle.audit.specs.Encoded.{key_read};
ghost use Rattle.schema_version.specs.declared.element.ElementDef.{ElementDef as ElementDefinition};
ghost use Rattle.page_check.specs.Page.{page_of};
ghost use Rattle.page_check.specs.Needs.{besides as besides_of, is_all_on_page as is_all_on_page_of, given_range as given_range_of, given_ranges as given_ranges_of, point_range as point_range_of, ranges_given as ranges_given_of, row_ranges as row_ranges_of};

use crate::given::given;
use crate::named::range_named;
use crate::page::is_on_page;
use audit::{key_of, row_at};
use byte_map::Bytes;
use collections::List;
use row_map::{KeyOf, Near, PairView, Row};
use schema_version::{ElementDef, Schema};
use std::alloc::{AllocError, Global};

// Whether all of a range is on the page.
fn is_all_on_page(range: &(Bytes, Bytes), low: &[u8], to: Option<&[u8]>) -> bool
    ensures { result ≡ is_all_on_page_of low.now (option_map (λ b. b.now) to.entry) range.now }
{
    if range.0.compare(low).is_lt() {
        return false;
    }
    match to {
        None => true,
        Some(to) => range.1.compare(to).is_le(),
    }
}

// A range, unless there is none or all of it is on the page.
fn besides(range: Option<(Bytes, Bytes)>, low: &[u8], to: Option<&[u8]>) -> Option<(Bytes, Bytes)>
    ensures { result ≡ besides_of low.now (option_map (λ b. b.now) to.entry) range }
{
    let range = range?;
    if is_all_on_page(&range, low, to) {
        None
    } else {
        Some(range)
    }
}

// Adds a range, if there is one.
fn push_if(out: &mut Vec<(Bytes, Bytes)>, range: Option<(Bytes, Bytes)>) -> Result<(), AllocError>
    ensures { OnOk result (out.new.items ≡ out.old.items ++ cons_option range []) }
{
    if let Some(range) = range {
        out.push(range)?;
    }
    Ok(())
}

/// The ranges of the rows that the keys of a page name, which are to be read besides the page: of
/// each a first key, and a key after the last. A row all of whose pairs are on the page needs none.
/// A row may be named by several pairs, and its range is then given as often. Refused only when out
/// of memory.
///
/// - `schema`: the version by which the pairs are read.
/// - `view`: what was read of the store: the page. What else it has does not matter.
/// - `low`: the key from which on the page was read.
/// - `to`: the key below which it was read; None if it was read to the end of the store.
pub fn row_ranges<V: PairView>(
    alloc: Global,
    schema: &Schema,
    view: &V,
    low: &[u8],
    to: Option<&[u8]>,
) -> Result<List<(Bytes, Bytes)>, AllocError>
    ensures { IfOk result (λ ranges. ranges ≡ row_ranges_of schema.now low.now (option_map (λ b. b.now) to.entry) (page_of (V.pairs view.now) low.now (option_map (λ b. b.now) to.entry))) }
{
    let mut out = Vec::new(alloc);
    let mut walk = view.walk();
    while let Some((key, _)) = walk.next() {
        if is_on_page(key, low, to) {
            push_if(&mut out, besides(range_named(alloc, schema, key)?, low, to))?;
        }
    }
    Ok(List::new(out))
}

// The range of a key alone.
fn point_range(alloc: Global, key: Bytes) -> Result<(Bytes, Bytes), AllocError>
    ensures { IfOk result (λ range. range ≡ point_range_of key) }
{
    let mut high = Vec::from_slice(alloc, key.as_slice())?;
    high.push(0)?;
    Ok((key, Bytes::new(high)?))
}

// The range of the pair that an element of its table gives a row.
fn given_range(
    alloc: Global,
    schema: &Schema,
    table: u32,
    row: &Row,
    element: &ElementDef,
) -> Result<Option<(Bytes, Bytes)>, AllocError>
    ensures { IfOk result (λ range. range ≡ given_range_of schema.now table row.now element.now) }
{
    if element.table != table {
        return Ok(None);
    }
    match given(alloc, schema, element, row)? {
        None => Ok(None),
        Some((key, _)) => Ok(Some(point_range(alloc, key)?)),
    }
}

// Adds the ranges of the pairs that elements give a row.
fn push_given(
    alloc: Global,
    out: &mut Vec<(Bytes, Bytes)>,
    schema: &Schema,
    elements: &[ElementDef],
    table: u32,
    row: &Row,
    low: &[u8],
    to: Option<&[u8]>,
) -> Result<(), AllocError>
    ensures { OnOk result (out.new.items ≡ out.old.items ++ filter_map (λ (element : ElementDefinition). besides_of low.now (option_map (λ b. b.now) to.entry) (given_range_of schema.now table row.now element)) elements.now) }
{
    for element in elements {
        let range = given_range(alloc, schema, table, row, element)?;
        push_if(out, besides(range, low, to))?;
    }
    Ok(())
}

// The same, if a key is that of a row's `exists` pair; else there are none.
fn push_by_key<V: PairView>(
    alloc: Global,
    out: &mut Vec<(Bytes, Bytes)>,
    schema: &Schema,
    view: &V,
    key: &[u8],
    low: &[u8],
    to: Option<&[u8]>,
) -> Result<(), AllocError>
    ensures { OnOk result (out.new.items ≡ out.old.items ++ ranges_given_of schema.now (V.pairs view.now) low.now (option_map (λ b. b.now) to.entry) (key_read key.now)) }
{
    match key_of(alloc, key)? {
        Some(KeyOf::Exists { table, key }) => {
            let row = row_at(alloc, schema, view, &mut Near::new(), table, key.as_slice())?;
            push_given(alloc, out, schema, schema.elements(), table, &row, low, to)
        }
        _ => Ok(()),
    }
}

/// The ranges of the pairs that the rows of a page give indexes and required columns, which are to be
/// read besides the page and its rows: of each its key, and the first key after that. A pair that is
/// on the page needs none. Refused only when out of memory.
///
/// - `schema`: the version by which the pairs are read.
/// - `view`: what was read of the store: the page, and what `row_ranges` gives for it. What else it
///   has does not matter.
/// - `low`: the key from which on the page was read.
/// - `to`: the key below which it was read; None if it was read to the end of the store.
pub fn given_ranges<V: PairView>(
    alloc: Global,
    schema: &Schema,
    view: &V,
    low: &[u8],
    to: Option<&[u8]>,
) -> Result<List<(Bytes, Bytes)>, AllocError>
    ensures { IfOk result (λ ranges. ranges ≡ given_ranges_of schema.now (V.pairs view.now) low.now (option_map (λ b. b.now) to.entry) (page_of (V.pairs view.now) low.now (option_map (λ b. b.now) to.entry))) }
{
    let mut out = Vec::new(alloc);
    let mut walk = view.walk();
    while let Some((key, _)) = walk.next() {
        if is_on_page(key, low, to) {
            push_by_key(alloc, &mut out, schema, view, key, low, to)?;
        }
    }
    Ok(List::new(out))
}
