//! The calls that an operator makes on a world behind a handle: plans and steps of schema
//! changes, reorganisations and their pieces, and how far they are. `embedded` exports each call for
//! C.
#![tactic(auto)]

mod advances;
mod changes;
mod dues;
mod pieces;
mod plans;
mod standing;

pub use advances::{AdvanceOutcome, advance};
pub use changes::{ChangeOutcome, begin_reorg, publish};
pub use dues::due_entry;
pub use pieces::{PieceOutcome, commit_piece, prepare_piece, read_piece};
pub use plans::plan;
pub use standing::{ProgressOutcome, progress, status};
