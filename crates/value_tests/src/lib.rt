//! Tests of the layers from lists to the store of pairs, as tables with answers from outside.
#![tactic(auto)]

#[cfg(test)]
mod batches;
#[cfg(test)]
mod codes;
#[cfg(test)]
mod fixtures;
#[cfg(test)]
mod leases;
#[cfg(test)]
mod lists;
#[cfg(test)]
mod pages;
#[cfg(test)]
mod ranks;
#[cfg(test)]
mod rows;
#[cfg(test)]
mod snapshots;
#[cfg(test)]
mod stores;
