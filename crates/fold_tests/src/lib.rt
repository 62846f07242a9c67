//! Tests of the fold and of the crates below it: the clock filter, selection, clustering, pages, and the orders of a journal.
//! They have a crate of their own, so that none of these crates is proved once more with them.
//!
//! `shared` and `journals` have what the others share; each is named after what it tests.
#![tactic(auto)]

#[cfg(test)]
mod cluster_tests;
#[cfg(test)]
mod filter_tests;
#[cfg(test)]
mod fit_tests;
#[cfg(test)]
mod journals;
#[cfg(test)]
mod leap_tests;
#[cfg(test)]
mod order_tests;
#[cfg(test)]
mod page_tests;
#[cfg(test)]
mod selection_tests;
#[cfg(test)]
mod shared;
#[cfg(test)]
mod source_tests;
#[cfg(test)]
mod sweep_tests;
