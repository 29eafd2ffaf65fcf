//! Tests of versions of the schema, of faults of declarations, of plans and of the pairs of
//! elements, on values worked out by hand.
#![tactic(auto)]

#[cfg(test)]
mod declarations;
#[cfg(test)]
mod elements;
#[cfg(test)]
mod fills;
#[cfg(test)]
mod make;
#[cfg(test)]
mod paths;
#[cfg(test)]
mod plans;
#[cfg(test)]
mod versions;
