//! Tests of what lies below the farm's parts: bounds, streams, what a person types, and the history.
//!
//! A proof covers what a clause says; these tests hold what none can say: values from outside, whether each call
//! can succeed, faults in turn, and a long run of the keeper beside the plain list. Where a new test goes:
//!
//! - `bounds`: bounds of time, and the lists for public fields;
//! - `bytes`: numbers and other small work on bytes;
//! - `streams`: sources and sinks, whole streams, calls that fail by plan;
//! - `connections`: connections, doors, clocks and lots;
//! - `titles`: what is typed for a title, its class and its path;
//! - `clients`: tokens and client ids;
//! - `texts`: line ends and lengths of texts;
//! - `feed`: the history as a plain list;
//! - `keeper`: the keeper in memory, by calls that are told;
//! - `twins`: the keeper beside the plain list, by random calls;
//! - `setting`: what they share: titles, tokens, texts, and the next entry of a history.
//!
//! The error of each test is `std::test::Fail`, so that `?` takes every refusal.
#![tactic(auto)]

#[cfg(test)]
mod bounds;
#[cfg(test)]
mod bytes;
#[cfg(test)]
mod clients;
#[cfg(test)]
mod connections;
#[cfg(test)]
mod feed;
#[cfg(test)]
mod keeper;
#[cfg(test)]
mod setting;
#[cfg(test)]
mod streams;
#[cfg(test)]
mod texts;
#[cfg(test)]
mod titles;
#[cfg(test)]
mod twins;
