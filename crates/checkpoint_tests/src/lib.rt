//! Tests of `checkpoint_check`, as tables with answers from outside.
#![tactic(auto)]

#[cfg(test)]
mod fixtures;
#[cfg(test)]
mod pairs;
#[cfg(test)]
mod parts;
