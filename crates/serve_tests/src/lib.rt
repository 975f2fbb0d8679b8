//! Tests of served connections.
//!
//! A proof says what the bytes of a connection mean; these tests hold whole connections as a browser sees them. Where a
//! new test goes:
//!
//! - `browsing`: an edit and a view, what they are answered byte for byte, and how a connection ends;
//! - `hostile`: input that is refused or too large, and the first call of a connection that fails;
//! - `faults`: each fault that one edit may meet, at each place: input that is cut, reads and writes, the keeper, the
//!   wire;
//! - `batches`: several pages at once;
//! - `receipts`: purges that come with a batch, which its round receives, or which are carried;
//! - `between_regions`: messages that are sent and taken before a request, and the second region;
//! - `failing_wire`: a wire of which sends fail;
//! - `setting`: a small farm, one of three pages, the first edit and its answer, and serving bytes on the farm.
//!
//! A test makes its keeper and hands it to a helper over any keeper: with the keeper's type in it a proof takes minutes.
//! Serving goes through one function of `setting`, over any connection, clock, lots and wire.
//!
//! The error of each test is `std::test::Fail`, so that `?` takes every refusal.
#![tactic(auto)]

#[cfg(test)]
mod batches;
#[cfg(test)]
mod between_regions;
#[cfg(test)]
mod browsing;
#[cfg(test)]
mod failing_wire;
#[cfg(test)]
mod faults;
#[cfg(test)]
mod hostile;
#[cfg(test)]
mod receipts;
#[cfg(test)]
mod setting;
