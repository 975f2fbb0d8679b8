//! Tests of the keeper in a database, over databases in memory.
//!
//! A proof covers what a clause says, which is bounds and counts; that the rows are the history is shown here, beside a
//! plain list and beside the keeper in memory. Where a new test goes:
//!
//! - `calls`: a few appends and every question, by answers that are written out, over both keepers;
//! - `twins`: the keeper beside the plain list, by random calls;
//! - `limits`: rows that no history has, and entries that no row takes;
//! - `versions`: files of version 1, of another version and of another program, and what is left of a refused one;
//! - `growth`: that no statement goes over the history;
//! - `setting`: what they share: keepers over a new database, the next entry of a history, and answers as text.
//!
//! The error of each test is `std::test::Fail`, so that `?` takes every refusal.
#![tactic(auto)]

#[cfg(test)]
mod calls;
#[cfg(test)]
mod growth;
#[cfg(test)]
mod limits;
#[cfg(test)]
mod setting;
#[cfg(test)]
mod twins;
#[cfg(test)]
mod versions;
