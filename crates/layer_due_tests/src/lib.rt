//! Tests of what is due by control records.
#![tactic(auto)]

#[cfg(test)]
mod dues;
#[cfg(test)]
mod fixtures;
#[cfg(test)]
mod order;
