//! Tests of layouts and of the options of a served farm.
//!
//! A proof covers what a clause says; these tests hold texts and words from outside, and that each call can succeed.
//! Where a new test goes:
//!
//! - `layouts`: texts, and the plans that they lay out or the rules that they break;
//! - `options`: words, and the options that they are.
//!
//! The error of each test is `std::test::Fail`, so that `?` takes every refusal.
#![tactic(auto)]

#[cfg(test)]
mod layouts;
#[cfg(test)]
mod options;
