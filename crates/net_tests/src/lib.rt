//! Tests of the real outside: both ends of a TCP connection on loopback, on one thread.
//!
//! The error of each test is `std::test::Fail`, so that `?` takes every refusal.
#![tactic(auto)]

#[cfg(test)]
mod loopback;
