//! What a log of accepted calls says of a store: its versions, rows, reorganisations and pairs, and
//! the laws by which the pairs stay consistent with every version that a lease may still use.
//!
//! The protocol is that of F1 ("Online, Asynchronous Schema Change in F1", Rae et al., PVLDB 6(11),
//! 2013): leases on schema versions, two versions in use at most, element states, and background
//! reorganisation between two steps.
#![tactic(auto)]

mod entry;
mod laws;
mod same;

pub use entry::{Entry, What};
pub use laws::{
    a_log_says, headline, lemma_begins_keep, lemma_items_stand, lemma_kept_agrees,
    lemma_leases_keep, lemma_openings_keep, lemma_pieces_keep, lemma_publications_keep,
    lemma_transactions_keep,
};
