//! The rows of a page.
use crate::pairs::{PairOf, pairs_of};
use audit::key_of;
use byte_map::Bytes;
use collections::List;
use keycode::{Value, Values};
use row_map::{KeyOf, PairView, exists_key};
use schema_version::Schema;
use std::alloc::{AllocError, Global};

/// A row of a page.
#[derive(Drop)]
pub struct PageRow {
    /// The values of its primary key.
    pub key: Values,
    /// What the store has of each element of the table for it, by rising number.
    pub pairs: List<PairOf>,
}

/// A page of a table's rows.
#[derive(Drop)]
pub struct Page {
    /// The rows, by rising primary key.
    pub rows: List<PageRow>,
    /// The key of the first row after them, if there is one.
    pub next: Option<Values>,
}

// The bytes with which the keys of a table's rows begin.
fn table_start(alloc: Global, table: u32) -> Result<Bytes, AllocError> {
    let mut bytes = Vec::new(alloc);
    bytes.push(b'R')?;
    bytes.extend_from_slice(&table.to_be_bytes())?;
    Bytes::new(bytes)
}

// The key at which a page begins: that of a row, or the first of the table.
fn page_start(alloc: Global, table: u32, from: &[Value]) -> Result<Bytes, AllocError> {
    if from.is_empty() {
        table_start(alloc, table)
    } else {
        exists_key(alloc, table, from)
    }
}

/// The rows of a table from a key on, each with what the store has of each element. Refused only when
/// out of memory. It takes time with the rows of the page, whatever else the table has.
///
/// - `schema`: the version by which the pairs are read.
/// - `view`: the store.
/// - `table`: the number of the table.
/// - `from`: the values of the key at which the page begins; the first row if there are none.
/// - `limit`: how many rows it has at most.
pub fn read_page<V: PairView>(
    alloc: Global,
    schema: &Schema,
    view: &V,
    table: u32,
    from: &[Value],
    limit: usize,
) -> Result<Page, AllocError> {
    let low = page_start(alloc, table, from)?;
    let high = table_start(alloc, table.saturating_add(1))?;
    let mut rows = List::new(Vec::new(alloc));
    let mut walk = view.walk_within(low.as_slice(), high.as_slice());
    while let Some((bytes, _)) = walk.next() {
        let Some(KeyOf::Exists { key, .. }) = key_of(alloc, bytes)? else {
            continue;
        };
        if rows.len() >= limit {
            let next = Some(key);
            return Ok(Page { rows, next });
        }
        let pairs = pairs_of(alloc, schema, view, table, &key)?;
        rows.push(PageRow { key, pairs })?;
    }
    Ok(Page { rows, next: None })
}
