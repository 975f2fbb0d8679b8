//! Tests of edits in two steps and of one region by itself, at the keeper and the cache in memory.
//!
//! A proof covers what a clause says; these tests hold worked rows and whether each call can succeed with ample memory.
//! Where a new test goes:
//!
//! - `edits`: edits that are begun, committed, refused or given up;
//! - `views`: a region that renders, stores, hits, purges and waits;
//! - `histories`: a region over a keeper: entries that it applies, positions that it takes at its opening, edits;
//! - `desk`: what edits are written into, called at any moment;
//! - `timed_region`: a region with the moment that it is called at;
//! - `setting`: titles, edits and entries.
//!
//! The error of each test is `std::test::Fail`, so that `?` takes every refusal.
#![tactic(auto)]

#[cfg(test)]
mod desk;
#[cfg(test)]
mod edits;
#[cfg(test)]
mod histories;
#[cfg(test)]
mod setting;
#[cfg(test)]
mod timed_region;
#[cfg(test)]
mod views;
