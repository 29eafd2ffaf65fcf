//! Tests of queries that are read page by page.
#![tactic(auto)]

#[cfg(test)]
mod fixtures;
#[cfg(test)]
mod pages;
