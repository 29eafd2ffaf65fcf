//! What the head of a checkpoint is made of, and control records and drafts.
use byte_map::Bytes;
use collections::List;
use keycode::Text;
use reorganise::Progress;
use schema_version::{Columns, ElementDef, Work};

/// The parts of a version of the schema. There may be no such version.
pub struct SchemaParts {
    /// The name and the key of each table, in the order of their numbers.
    pub tables: List<(Text, Columns)>,
    /// The live elements, by rising number.
    pub elements: List<ElementDef>,
    /// The next free number of an element.
    pub next: u32,
}

// By hand, so that a caller's proof sees one call and not each field's.
impl Drop for SchemaParts {
    fn drop(self) {
        let SchemaParts {
            tables: _,
            elements: _,
            next: _,
        } = self;
    }
}

/// The parts of a checkpoint without its pairs. There may be no such checkpoint.
#[derive(Drop)]
pub struct HeadParts {
    /// How many entries came before.
    pub place: u64,
    /// The moment of the last of them.
    pub moment: u64,
    /// For how long a lease is granted.
    pub length: u64,
    /// The moment of each version's publication, that of version 1 first.
    pub published: List<u64>,
    pub newest: SchemaParts,
    /// The version before the newest.
    pub before: Option<SchemaParts>,
    /// The reorganisations that have begun and are not over.
    pub begun: List<Progress>,
}

/// The parts of a begun reorganisation's record. There may be no such reorganisation.
#[derive(Drop)]
pub struct ReorgParts {
    /// What is filled or cleared, as it was at the begin.
    pub element: ElementDef,
    /// Whether it is filled or cleared.
    pub work: Work,
    /// The lower and the upper bound of each piece.
    pub bounds: List<(Bytes, Bytes)>,
}

/// Keys, each with its value or none: what a view found, and what a draft compares or writes.
pub type Points = List<(Bytes, Option<Bytes>)>;

/// A range of keys with all its pairs.
pub struct RangeParts {
    /// The first key that may be in the range.
    pub low: Bytes,
    /// The key before which the range ends.
    pub high: Bytes,
    /// All pairs from `low` to below `high`.
    pub pairs: List<(Bytes, Bytes)>,
}

// By hand, so that a caller's proof sees one call and not each field's.
impl Drop for RangeParts {
    fn drop(self) {
        let RangeParts {
            low: _,
            high: _,
            pairs: _,
        } = self;
    }
}

/// The parts of a draft: what a store compares, and what it then writes, in one transaction.
pub struct DraftParts {
    /// Keys that have these values, or none.
    pub compare: Points,
    /// Ranges that have these pairs and no other.
    pub ranges: List<RangeParts>,
    /// Keys that get these values, or lose their pairs.
    pub write: Points,
}

// By hand, so that a caller's proof sees one call and not each field's.
impl Drop for DraftParts {
    fn drop(self) {
        let DraftParts {
            compare: _,
            ranges: _,
            write: _,
        } = self;
    }
}
