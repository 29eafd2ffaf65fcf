//! Tests of pages under a lease, and of a snapshot.
#![tactic(auto)]

#[cfg(test)]
mod fixtures;
#[cfg(test)]
mod pages;
