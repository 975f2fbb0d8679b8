//! Tests of requests and responses over a connection.
//!
//! A proof covers what a clause says; these tests hold whole requests and responses as they go over the wire. Where a
//! new test goes:
//!
//! - `browsing`: what a browser sends and gets, byte for byte;
//! - `hostile`: requests that are refused, each for its own fault;
//! - `limits`: how large a head and its parts may be;
//! - `pieces`: input that is cut off, and input that comes byte by byte;
//! - `setting`: reading a request from bytes, and a word for what was read.
//!
//! The error of each test is `std::test::Fail`, so that `?` takes every refusal.
#![tactic(auto)]

#[cfg(test)]
mod browsing;
#[cfg(test)]
mod hostile;
#[cfg(test)]
mod limits;
#[cfg(test)]
mod pieces;
#[cfg(test)]
mod setting;
