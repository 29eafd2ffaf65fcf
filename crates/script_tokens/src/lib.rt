//! The tokens of a line, and what stands at the start of them: marks, words, names, counts, types,
//! states and values.
#![tactic(auto)]

mod fault;
mod part;
mod production;
mod read;
mod token;
mod values;

pub use fault::LineFault;
pub use part::Part;
pub use production::{Production, read_each};
pub use read::{
    after_mark, after_word, at_end, column_type, count, cut_brackets, is_mark, is_word, name,
    small_count, state,
};
pub use token::{Mark, Token, tokens_of};
pub use values::value;
