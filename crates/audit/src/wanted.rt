//! The pairs that indexes and required columns give rows.
ghost use Rattle.std.specs.Prelude.{◌≡◌, IfOk, Some, count_by};
ghost use Rattle.audit.specs.Audit.{lacks as lacks_of};
ghost use Rattle.audit.specs.inner.RowCounts.{is_present as is_present_of, gives as gives_of};
ghost use Rattle.audit.specs.inner.Made.{definition_of, given_by, IsMade, AreMade};
ghost use Rattle.schema_version.specs.Version.{live};

use byte_map::Bytes;
use element_state::{AnyElement, Element};
use row_map::{PairView, Row};
use schema_version::{ElementDef, Schema};
use std::alloc::{AllocError, Global};

/// A live element of a version, made once for all rows.
#[derive(Drop)]
pub(crate) struct Made<'a> {
    /// What the version says of it.
    pub(crate) definition: &'a ElementDef,
    /// What gives rows their pairs for it, with the default of the version for values that a row
    /// lacks.
    pub(crate) element: AnyElement,
}

fn made_of<'a>(
    alloc: Global,
    schema: &Schema,
    definition: &'a ElementDef,
) -> Result<Made<'a>, AllocError>
    ensures definition { IfOk result (λ made. definition_of made ≡ definition.now) }
    ensures made { IfOk result (λ made. IsMade schema.now made) }
{
    Ok(Made {
        definition,
        element: AnyElement::of(alloc, schema, definition)?,
    })
}

// The live elements of a version, in their order.
pub(crate) fn all_made<'a>(alloc: Global, schema: &'a Schema) -> Result<Vec<Made<'a>>, AllocError>
    ensures { IfOk result (λ all. AreMade schema.now all.items) }
{
    let mut all = Vec::new(alloc);
    for definition in schema.elements() {
        all.push(made_of(alloc, schema, definition)?)?;
    }
    Ok(all)
}

// The pair that an element gives a row of its table, if it is an index or a required column.
pub(crate) fn given(
    alloc: Global,
    made: &Made<'_>,
    row: &Row,
) -> Result<Option<(Bytes, Bytes)>, AllocError>
    ensures { IfOk result (λ pair. pair ≡ given_by made.now row.now) }
{
    made.element.fill_of(alloc, row)
}

// Whether the store has the pair with just this value.
fn is_present<V: PairView>(view: &V, pair: &(Bytes, Bytes)) -> bool
    ensures { result ≡ is_present_of (V.pairs view.now) (Some pair.now) }
{
    match view.get(pair.0.as_slice()) {
        None => false,
        Some(found) => found == pair.1.as_slice(),
    }
}

/// What an element's pair of a row counts for.
#[derive(Clone, Copy)]
struct Weight {
    // Whether a public index or required column lacks it.
    lacks: bool,
    // Whether a live index has it.
    gives: bool,
}

const NOTHING: Weight = Weight {
    lacks: false,
    gives: false,
};

// What an element's pair of a row of its table counts for. The pair is made and looked up once.
fn weigh<V: PairView>(
    alloc: Global,
    schema: &Schema,
    view: &V,
    table: u32,
    row: &Row,
    made: &Made<'_>,
) -> Result<Weight, AllocError>
    requires { IsMade schema.now made.now }
    ensures lacks { IfOk result (λ w. w.lacks ≡ lacks_of schema.now (V.pairs view.now) table row.now (definition_of made.now)) }
    ensures gives { IfOk result (λ w. w.gives ≡ gives_of schema.now (V.pairs view.now) table row.now (definition_of made.now)) }
{
    let element = made.definition;
    if element.table != table {
        return Ok(NOTHING);
    }
    let Some(pair) = given(alloc, made, row)? else {
        return Ok(NOTHING);
    };
    let present = is_present(view, &pair);
    Ok(Weight {
        lacks: element.state.is_public() && !present,
        gives: element.kind.is_index() && present,
    })
}

/// How many pairs of a row public indexes and required columns lack, and how many live indexes
/// have.
#[derive(Clone, Copy)]
pub(crate) struct Wanted {
    /// Those that public indexes and required columns lack.
    pub(crate) missing: u64,
    /// Those that live indexes have.
    pub(crate) given: u64,
}

// What the pairs that elements give a row count for.
pub(crate) fn count_wanted<V: PairView>(
    alloc: Global,
    schema: &Schema,
    view: &V,
    elements: &[Made<'_>],
    table: u32,
    row: &Row,
) -> Result<Wanted, AllocError>
    requires { AreMade schema.now elements.now }
    ensures missing { IfOk result (λ w. w.missing ≡ count_by (lacks_of schema.now (V.pairs view.now) table row.now) (live schema.now)) }
    ensures given { IfOk result (λ w. w.given ≡ count_by (gives_of schema.now (V.pairs view.now) table row.now) (live schema.now)) }
{
    let mut missing = 0u64;
    let mut given = 0u64;
    for made in elements {
        let weight = weigh(alloc, schema, view, table, row, made)?;
        missing += u64::from(weight.lacks);
        given += u64::from(weight.gives);
    }
    Ok(Wanted { missing, given })
}
