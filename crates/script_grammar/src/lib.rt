//! The grammar of a script: from the bytes of a line to the command that they parse to, and the
//! printing of bytes and values.
#![tactic(auto)]

mod columns;
mod command;
mod element;
mod grammar;
mod named;
mod operation;
mod print;
mod selection;
mod silent;

pub use columns::Columns;
pub use command::Command;
pub use element::{ElementName, New};
pub use grammar::read_command;
pub use named::{NamedChange, NamedMove};
pub use operation::Operation;
pub use print::{push_hex, push_value, state_word};
pub use selection::{Condition, Selection};
pub use silent::is_silent;
