//! Where walks begin and end.
// `row_query` has the same private functions.
ghost use Rattle.std.specs.Prelude.{◌≡◌, ◌∷◌, IfOk};
ghost use Rattle.std.specs.Int.{w32, to_be_bytes};
ghost use Rattle.row_query.specs.inner.Bounds.{table_end, low_bound, high_bound};

use keycode::push_value;
use row_query::Cond;
use std::alloc::{AllocError, Global};

/// The first bytes of the keys of a table's or an index's pairs.
pub(crate) fn prefix_of(alloc: Global, tag: u8, number: u32) -> Result<Vec<u8>, AllocError>
    ensures { IfOk result (λ bytes. bytes.items ≡ tag ∷ to_be_bytes w32 number) }
{
    let mut out = Vec::new(alloc);
    out.push(tag)?;
    out.extend_from_slice(&number.to_be_bytes())?;
    Ok(out)
}

/// A key after those of a table's rows.
pub(crate) fn end_of(alloc: Global, table: u32) -> Result<Vec<u8>, AllocError>
    ensures { IfOk result (λ bytes. bytes.items ≡ table_end table) }
{
    let mut out = prefix_of(alloc, b'R', table)?;
    out.push(5)?;
    Ok(out)
}

/// The first key that a row which meets the condition can have in the index.
pub(crate) fn low_of(alloc: Global, number: u32, condition: &Cond) -> Result<Vec<u8>, AllocError>
    ensures { IfOk result (λ bytes. bytes.items ≡ low_bound number condition.now) }
{
    let mut out = prefix_of(alloc, b'X', number)?;
    match condition {
        Cond::Key(_) => (),
        Cond::Equal { value, .. } => push_value(&mut out, value)?,
        Cond::Between { low: None, .. } => out.push(2)?,
        Cond::Between { low: Some(low), .. } => push_value(&mut out, low)?,
    }
    Ok(out)
}

/// A key after those.
pub(crate) fn high_of(alloc: Global, number: u32, condition: &Cond) -> Result<Vec<u8>, AllocError>
    ensures { IfOk result (λ bytes. bytes.items ≡ high_bound number condition.now) }
{
    let mut out = prefix_of(alloc, b'X', number)?;
    match condition {
        Cond::Key(_) => (),
        Cond::Equal { value, .. } => push_value(&mut out, value)?,
        Cond::Between { high: None, .. } => (),
        Cond::Between {
            high: Some(high),
            ..
        } => push_value(&mut out, high)?,
    }
    out.push(5)?;
    Ok(out)
}
