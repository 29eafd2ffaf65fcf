//! Laws of the core that its calls' contracts do not say by name: what runs on which version, what
//! a publication finds, what an audit counts, and what a snapshot answers. Each is a call without a
//! body, so that a contract names it.
//!
//! Each premise is one that every World meets, and a call of World tells it. The protocol is that
//! of F1 ("Online, Asynchronous Schema Change in F1", Rae et al., PVLDB 6(11), 2013).
#![tactic(auto)]

mod laws;

pub use laws::{
    checks_are_clean, commits_are_recent, publications_find_exact, shared_answers_are_lawful,
    snapshots_answer_their_log,
};
