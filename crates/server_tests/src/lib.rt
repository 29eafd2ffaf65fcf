//! Servers and the counter from which they draw: what no clause says of them.
#![tactic(auto)]

#[cfg(test)]
mod contended;
#[cfg(test)]
mod counter;
#[cfg(test)]
mod fills;
#[cfg(test)]
mod gates;
#[cfg(test)]
mod one_request;
#[cfg(test)]
mod refusals;
#[cfg(test)]
mod table;
#[cfg(test)]
mod turned;
