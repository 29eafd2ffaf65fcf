//! Tests of the layers over rows, as tables with answers from outside: transactions, queries, which
//! values are wrong, audits, checks of one element and reorganisations.
#![tactic(auto)]

#[cfg(test)]
mod audits;
#[cfg(test)]
mod audits_on_threads;
#[cfg(test)]
mod element_checks;
#[cfg(test)]
mod fixtures;
#[cfg(test)]
mod keys_of_rows;
#[cfg(test)]
mod operations;
#[cfg(test)]
mod reorganisations;
#[cfg(test)]
mod row_outcomes;
#[cfg(test)]
mod row_queries;
#[cfg(test)]
mod row_reads;
#[cfg(test)]
mod row_writes;
#[cfg(test)]
mod wrong_conditions;
#[cfg(test)]
mod wrong_values;
