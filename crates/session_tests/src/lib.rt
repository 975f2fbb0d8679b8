//! Tests of whole scripts in which caches, positions and purges decide what a session is shown, byte for byte.
//!
//! Every test runs the program's own `run` over forms in memory and compares all that it wrote. No expected report is
//! our own output: each was worked by hand, and a second reading in Python (checks/reference) gives it too. Where a new
//! test goes:
//!
//! - `sessions`: cookies, positions and waiting;
//! - `cached_pages`: what a cache keeps and shows, at the edges of each rule;
//! - `interleavings`: purges that are lost, late or repeated, clocks that disagree: the scripts of examples/;
//! - `setting`: a drill and its report.
//!
//! Scripts of edits and of one region's views, refusals, statuses and faults are in `run_tests`. The error of each test
//! is `std::test::Fail`, so that `?` takes every refusal.
#![tactic(auto)]

#[cfg(test)]
mod cached_pages;
#[cfg(test)]
mod interleavings;
#[cfg(test)]
mod sessions;
#[cfg(test)]
mod setting;
