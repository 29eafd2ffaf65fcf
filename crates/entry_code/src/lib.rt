//! Entries of a log, operations, steps, openings, queries, rows, changes and plans as bytes: each has
//! one code, and what is read of bytes has these bytes as its code.
#![tactic(auto)]

mod borrowed;
mod calls;
mod changes;
mod checkpoints;
mod elements;
mod encoded;
mod entries;
mod fault;
mod laws;
mod lists;
mod numbers;
mod ops;
mod parts;
mod queries;
mod records;
mod steps;
mod tables;
mod texts;
mod values;
mod whole;

pub use borrowed::borrowed_draft_bytes;
pub use calls::{
    changes_bytes, changes_of, entry_bytes, entry_of, opening_bytes, opening_of, ops_bytes, ops_of,
    plan_bytes, plan_of, query_bytes, query_of, rows_bytes, rows_of, step_bytes, step_of,
};
pub use checkpoints::{head_parts_bytes, head_parts_of, pairs_bytes, pairs_of};
pub use fault::CodeFault;
pub use laws::{codes_say, one_code};
pub use parts::{DraftParts, HeadParts, Points, RangeParts, ReorgParts, SchemaParts};
pub use records::{
    draft_parts_bytes, draft_parts_of, points_bytes, points_of, reorg_parts_bytes, reorg_parts_of,
    schema_parts_bytes, schema_parts_of,
};
