//! Tests of the parts of a region: which replica answers, sessions' positions and cookies, replicas and snapshots.
//!
//! A proof covers what a clause says; these tests hold worked rows, hostile fields, and whether each call can
//! succeed. Where a new test goes:
//!
//! - `choices`: which replica answers a read;
//! - `routes`: which region a request goes to;
//! - `cookies`: the cookies of a session, as they are read and written;
//! - `positions`: positions, and a region's store of them;
//! - `replicas`: entries that a replica takes, and its snapshots;
//! - `setting`: titles and entries.
//!
//! The error of each test is `std::test::Fail`, so that `?` takes every refusal.
#![tactic(auto)]

#[cfg(test)]
mod choices;
#[cfg(test)]
mod cookies;
#[cfg(test)]
mod positions;
#[cfg(test)]
mod replicas;
#[cfg(test)]
mod routes;
#[cfg(test)]
mod setting;
