//! Why tables may not be declared: the first fault of a declaration, and where it is.
#![tactic(auto)]

mod declaration;
mod fault;
mod laws;
mod lists;
mod names;

pub use declaration::declaration_fault;
pub use fault::{TableCause, TableFault};
pub use laws::lemma_one_fault;
