//! Lines that are answered as they come, each before the next is read.
#![tactic(auto)]

mod alone;
mod carried;
mod carry;
mod conversation;
mod details;
mod fault;
mod form;
mod gone;
mod handover;
mod line_answer;
mod line_text;
mod log_cut;
mod moment;
mod save;
mod state;
mod streams;
mod try_line;
mod undo;
mod visible;

pub use conversation::{Summary, converse};
pub use fault::{PromptFault, prompt_status};
pub use form::Form;
pub use handover::Handover;
pub use save::Files;
pub use streams::Streams;
