//! The newest version.
ghost use Rattle.std.specs.Prelude.{◌≡◌, IfOk};
ghost use Rattle.drafts.specs.Calls.{newest_reads as reads_of};

use crate::key::Key;
use crate::record::Record;
use collections::ArcValue;
use schema_version::Schema;
use std::alloc::{AllocError, Global};

/// The newest version, as the store had its record.
pub struct Newest {
    /// The number of the version before it; 0 if it is the first.
    pub before: u32,
    /// Its schema.
    pub schema: ArcValue<Schema>,
}

// By hand, so that a caller's proof sees one call and not each field's.
impl Drop for Newest {
    fn drop(self) {
        let Newest {
            before: _,
            schema: _,
        } = self;
    }
}

/// What compares that this version is open, and none after it.
pub(crate) fn newest_reads(
    alloc: Global,
    newest: &Newest,
) -> Result<Vec<(Key, Option<Record>)>, AllocError>
    ensures { IfOk result (λ points. points.items ≡ reads_of newest.now) }
{
    let number = u64::from(newest.before);
    let mut out = Vec::new(alloc);
    let schema = newest.schema.clone()?;
    out.push((Key::version(number + 1), Some(Record::Version(schema))))?;
    out.push((Key::version(number + 2), None))?;
    Ok(out)
}
