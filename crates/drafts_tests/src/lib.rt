//! Drafts over a store in memory that knows nothing but comparing and writing.
#![tactic(auto)]

#[cfg(test)]
mod acts;
#[cfg(test)]
mod faults;
#[cfg(test)]
mod fixtures;
#[cfg(test)]
mod model;
#[cfg(test)]
mod server;
#[cfg(test)]
mod stories;
