//! Tests of `region_round`: rounds of jobs on one region's cache.
//!
//! A test makes a farm in memory whose west has applied three edits, and asks for a round there. Where a new test goes:
//!
//! - `rounds`: rounds of views and receipts, by how many workers;
//! - `meetings`: jobs that can only end well if they are done side by side;
//! - `after_rounds`: what a round leaves in the cache for later rounds;
//! - `setting`: what they share: the farm, its jobs, and a round whose conditions are looked at first.
//!
//! A test makes its farm and hands it to a helper over any keeper: with the keeper's type in it a proof takes minutes.
//!
//! What is answered is compared as the lines that a report has of it, with each answer's place as its number. The error
//! of each test is `std::test::Fail`, so that `?` takes every refusal.
#![tactic(auto)]

#[cfg(test)]
mod after_rounds;
#[cfg(test)]
mod meetings;
#[cfg(test)]
mod rounds;
#[cfg(test)]
mod setting;
