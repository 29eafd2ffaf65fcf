//! What is known of the elements of every schema version.
ghost use Rattle.row_write.specs.inner.IndexedColumns.{IsServed};

use schema_version::Schema;

/// Tells that elements stand under their numbers and indexes list public columns.
pub(crate) fn lemma_served(schema: &Schema)
    ensures { IsServed schema.now }
{
    schema.lemma_known();
}
