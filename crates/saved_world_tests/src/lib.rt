//! Tests of a checkpoint's bytes, as a whole and in parts, against bytes worked out by hand.
#![tactic(auto)]

#[cfg(test)]
mod by_hand;
#[cfg(test)]
mod copied;
#[cfg(test)]
mod damaged;
#[cfg(test)]
mod digests;
#[cfg(test)]
mod loading;
#[cfg(test)]
mod parts;
#[cfg(test)]
mod saved;
#[cfg(test)]
mod worlds;
