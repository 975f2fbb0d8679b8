//! Tests of values, of the two caches, and of the ledger and its wires.
//!
//! A proof covers what a clause says; these tests hold worked rows, whether each call can succeed, faults in turn,
//! and a long run of the cache beside a plain list of keys. Where a new test goes:
//!
//! - `values`: the rule that stores a page, and the rule that keeps it fresh;
//! - `eviction`: what a full cache forgets;
//! - `beside_plain`: a cache and the list of keys in `plain`, by random calls;
//! - `slots`: which slot of the cache of fixed slots a title has;
//! - `neighbors`: what two titles of one slot, and of two, see of each other;
//! - `shares`: what several seats of one cache see of each other, and what is left when they are done;
//! - `crew`: a shared cache with its seats, for those tests;
//! - `ledger`: messages, their numbers and receipts;
//! - `wires`: messages on their way, by plan;
//! - `timed`: a store with the moment that it is called at, which the tests of a cache share;
//! - `setting`: titles and values.
//!
//! The error of each test is `std::test::Fail`, so that `?` takes every refusal.
#![tactic(auto)]

#[cfg(test)]
mod beside_plain;
#[cfg(test)]
mod crew;
#[cfg(test)]
mod eviction;
#[cfg(test)]
mod ledger;
#[cfg(test)]
mod neighbors;
#[cfg(test)]
mod plain;
#[cfg(test)]
mod setting;
#[cfg(test)]
mod shares;
#[cfg(test)]
mod slots;
#[cfg(test)]
mod timed;
#[cfg(test)]
mod values;
#[cfg(test)]
mod wires;
