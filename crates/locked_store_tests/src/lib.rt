//! A shared world under one thread and under two: what no clause says of its calls, and receipts
//! against its log. And changes that are carried on, alone and beside servers.
#![tactic(auto)]

#[cfg(test)]
mod acts;
#[cfg(test)]
mod carried_on;
#[cfg(test)]
mod fixtures;
#[cfg(test)]
mod handle_port;
#[cfg(test)]
mod increments;
#[cfg(test)]
mod one_thread;
#[cfg(test)]
mod pieces;
#[cfg(test)]
mod two_threads;
