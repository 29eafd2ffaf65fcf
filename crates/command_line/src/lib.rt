//! The command line of the program: what its words choose, the help, and the exit status after
//! words that are refused.
#![tactic(auto)]

mod choice;
mod commands;
mod help;
mod load_size;
mod number;
mod soak_size;

pub use choice::{Chosen, options, status_of};
pub use help::NOT_UTF8;
pub use load_size::{
    LoadSize, MAX_LIMIT, MAX_PIECES, MAX_RATE, MAX_ROWS, MAX_SERVERS, MAX_WORKERS,
};
pub use soak_size::{MAX_UPDATES, SoakSize};
