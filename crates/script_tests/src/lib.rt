//! Tests of scripts, reports and the generator, with ample memory.
//!
//! A proof covers what a clause says; these tests hold worked rows, and whether each call can succeed. Where a new test
//! goes:
//!
//! - `lines`: scripts that are read, and what their first lines say of the farm;
//! - `refusals`: scripts and their first faulty line;
//! - `reports`: the text of each answer, the last line and the summary;
//! - `stirring`: what the generator makes.
//!
//! The error of each test is `std::test::Fail`, so that `?` takes every refusal.
#![tactic(auto)]

#[cfg(test)]
mod lines;
#[cfg(test)]
mod refusals;
#[cfg(test)]
mod reports;
#[cfg(test)]
mod stirring;
