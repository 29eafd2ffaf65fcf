//! Numbered tasks by several workers: what no clause says of them.
#![tactic(auto)]

#[cfg(test)]
mod squares;
