//! Tests of queries over a store that is read page by page, and of its audit by pages.
#![tactic(auto)]

#[cfg(test)]
mod checked_pages;
#[cfg(test)]
mod fixtures;
#[cfg(test)]
mod paged_queries;
