//! The pairs that elements give rows.
// `audit`, `element_check` and `checkpoint_check` have the same private functions, for elements that
// are made once.
ghost use Rattle.std.specs.Prelude.{◌≡◌, IfOk};
ghost use Rattle.audit.specs.Audit.{given as given_of, is_absent as is_absent_of, is_same_pair as is_same_pair_of};

use byte_map::Bytes;
use element_state::{AnyElement, Element};
use row_map::{PairView, Row};
use schema_version::{ElementDef, Schema};
use std::alloc::{AllocError, Global};

// The pair that an element gives a row of its table, if it is an index or a required column.
pub(crate) fn given(
    alloc: Global,
    schema: &Schema,
    element: &ElementDef,
    row: &Row,
) -> Result<Option<(Bytes, Bytes)>, AllocError>
    ensures { IfOk result (λ pair. pair ≡ given_of schema.now element.now row.now) }
{
    let made = AnyElement::of(alloc, schema, element)?;
    made.fill_of(alloc, row)
}

// Whether there is a pair, and the store hasn't got it with just this value.
pub(crate) fn is_absent<V: PairView>(view: &V, pair: &Option<(Bytes, Bytes)>) -> bool
    ensures { result ≡ is_absent_of (V.pairs view.now) pair.now }
{
    match pair {
        None => false,
        Some((key, value)) => match view.get(key.as_slice()) {
            None => true,
            Some(found) => found != value.as_slice(),
        },
    }
}

// Whether there is a pair, and it is this one.
pub(crate) fn is_same_pair(own: &Option<(Bytes, Bytes)>, pair: (&[u8], &[u8])) -> bool
    ensures { result ≡ is_same_pair_of own.now (pair.entry.0.now, pair.entry.1.now) }
{
    match own {
        None => false,
        Some((key, value)) => key.as_slice() == pair.0 && value.as_slice() == pair.1,
    }
}
