//! What the command line chooses, line by line.
#![tactic(auto)]

#[cfg(test)]
mod lines;
