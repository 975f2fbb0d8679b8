//! Tests of the calls of `Farm` that no script makes, or of which a report shows too little. Scripts with their
//! reports are in `run_tests`.
//!
//! Each helper takes a farm over any keeper and any cache, so that it needs no more than the bounds of the calls
//! promise; the tests make the farm, in memory. Where a new test goes:
//!
//! - `steps`: steps of which a script shows less, and steps that it has no form for;
//! - `calls`: calls that are no step;
//! - `lent_caches`: a cache that is lent to a round, and given back;
//! - `reopened_farms`: a farm over a history that another one left;
//! - `setting`: what they share: a small farm, requests, and steps whose conditions are looked at first.
//!
//! What an answer says is compared as the line that a report has of it, with 1 as its number. The error of each test is
//! `std::test::Fail`, so that `?` takes every refusal.
#![tactic(auto)]

#[cfg(test)]
mod calls;
#[cfg(test)]
mod lent_caches;
#[cfg(test)]
mod reopened_farms;
#[cfg(test)]
mod setting;
#[cfg(test)]
mod steps;
