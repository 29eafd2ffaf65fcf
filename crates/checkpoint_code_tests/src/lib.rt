//! Tests of a checkpoint's head and pages as bytes, worked out by hand.
#![tactic(auto)]

#[cfg(test)]
mod heads;
#[cfg(test)]
mod pages;
