//! Serves the connections of a farm: each request that is read gets its steps and its response.
//!
//! A request is served in a fixed order, so that whoever reads the bytes of a connection can tell what the farm did.
//! (1) A request is read. If it is refused, its refusal is the response, and the farm is not asked. (2) Else the clocks
//! are read once, for all that follows. (3) The house is kept: messages that were not sent are given to the wire, those
//! that came are carried, a beat is made if it is due, and each replica applies, home's first. (4) The request makes
//! its own steps, up to its first answer; a batch ends with one round of all its titles. (5) The answer becomes the
//! response. (6) The next request is read, until the connection ends ([`ConnEnd`]).
//!
//! With a batch of west the first purges that came are held back in (3), as many as its round has jobs beside the
//! titles. The round receives them after its views; only if the batch ended before its round are they carried, before
//! (5).
//!
//! The idea is one clause for the whole connection (`IsServed`): there is a list of exchanges, each a request with what
//! was done for it, such that the bytes that were read are these requests, the bytes that were written are their
//! responses, what clocks, lots and wire gave is what they took, and each run for which the farm stood goes on by their
//! turns. Each of the four is known as far as its object exposes itself, and no more is asked.
//!
//! What is left to others: reading requests and the bytes of responses are `http_desk`'s, the farm's steps
//! `farm_core`'s, rounds are `region_round`'s, and where connections come from is the caller's.
//!
//! ```text
//! GET /wiki/Main_Page HTTP/1.1, Host: home.example     the steps arrive, wait, look, snap, store; 404 no-page source=1
//! GET /batch?titles=A%7CB HTTP/1.1, Host: home.example the steps arrive, wait, need, a round; 200, a line a page
//! the same of west.example, with A's purge             the same, and the round receives the purge; 200, a line a page
//! end of input                                         ConnEnd::Closed
//! ```
#![tactic(auto)]

mod asked_steps;
mod callers;
mod connection;
mod held_purges;
mod housework;
mod list_answers;
mod read_arrival;
mod replies;
mod respond;
mod serve_arrival;
mod serve_batch;
mod served_farm;

pub use connection::{ConnEnd, REQUESTS_MAX, serve_conn};
pub use housework::TAKEN_MAX;
pub use served_farm::ServedFarm;
