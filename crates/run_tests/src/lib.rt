//! Tests of the top call: scripts of edits and their first views, what is refused, and faults in turn.
//!
//! Every test runs the program's own `run` over forms in memory and compares how it ended and all that it wrote. No
//! expected report is our own output: each was worked by hand, and a second reading in Python (checks/reference)
//! gives it too. Where a new test goes:
//!
//! - `edits`: edits and their answers, and the first views of their pages;
//! - `pages`: what a text looks like as a page;
//! - `prefixes`: which prefix a page is of, and which replica answers;
//! - `refusals`: scripts outside the grammar;
//! - `words`: words that are no command, scripts that are made, and the number of each status;
//! - `serving`: layouts that are read, and connections that are served;
//! - `streams`: reads and writes that fail;
//! - `keepers`: keepers that fail, that are not empty, and that are given back;
//! - `setting`: what they share: one run, its status, its text and its keeper;
//! - `failing_keeper`: a keeper of which other calls than appends fail.
//!
//! Scripts in which caches, positions and purges decide what a session is shown are in `session_tests`. The error of
//! each test is `std::test::Fail`, so that `?` takes every refusal.
#![tactic(auto)]

#[cfg(test)]
mod edits;
#[cfg(test)]
mod failing_keeper;
#[cfg(test)]
mod keepers;
#[cfg(test)]
mod pages;
#[cfg(test)]
mod prefixes;
#[cfg(test)]
mod refusals;
#[cfg(test)]
mod serving;
#[cfg(test)]
mod setting;
#[cfg(test)]
mod streams;
#[cfg(test)]
mod words;
