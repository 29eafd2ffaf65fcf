//! Each call of the core once, and what no script can ask of it: work under another schema, pieces
//! of another world, a run of events; and the codes of entries.
#![tactic(auto)]

#[cfg(test)]
mod acts;
#[cfg(test)]
mod codes;
#[cfg(test)]
mod events;
#[cfg(test)]
mod fixtures;
#[cfg(test)]
mod kept_work;
#[cfg(test)]
mod leases;
#[cfg(test)]
mod pieces;
#[cfg(test)]
mod replicas;
#[cfg(test)]
mod reported;
#[cfg(test)]
mod restored;
#[cfg(test)]
mod transactions;
#[cfg(test)]
mod walks;
