//! Tests of hosted wikis.
//!
//! A proof says that a hosting is one run over the connections of a door; these tests hold whole hostings over a door
//! in memory. Where a new test goes:
//!
//! - `visits`: connections that are served one after another, byte for byte, and handed back;
//! - `openings`: layouts, histories that are there already, and keepers that fail;
//! - `restarts`: what a session finds in a second hosting over the keeper of the first;
//! - `endings`: how many connections are served, and a door that has no more or fails;
//! - `failing_keeper`: a keeper that cannot be made ready;
//! - `setting`: a door over inputs, and hosting a wiki on it.
//!
//! The error of each test is `std::test::Fail`, so that `?` takes every refusal.
#![tactic(auto)]

#[cfg(test)]
mod endings;
#[cfg(test)]
mod failing_keeper;
#[cfg(test)]
mod openings;
#[cfg(test)]
mod restarts;
#[cfg(test)]
mod setting;
#[cfg(test)]
mod visits;
