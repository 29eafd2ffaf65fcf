//! Tests of control records, their keys and drafts as bytes, worked out by hand.
#![tactic(auto)]

#[cfg(test)]
mod applied;
#[cfg(test)]
mod drafts_made;
#[cfg(test)]
mod keys;
#[cfg(test)]
mod parts;
#[cfg(test)]
mod records;
