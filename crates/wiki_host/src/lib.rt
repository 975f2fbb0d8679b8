//! Hosts a wiki: opens a farm by a layout, and serves the connections of a door on it, one after another.
//!
//! The idea is that a hosting is one run of one farm. (1) The keeper is made ready, and the layout is read; if either
//! fails, nothing is asked of clocks or door. (2) The clocks are read once, and the farm is opened at that reading over
//! the history that the keeper has, with a cache for each region of as many slots as the layout says. (3) Before the
//! first connection the farm is set to the second markup, at the same reading. (4) Then the door is asked for a
//! connection, the connection is served to its end, and it is handed back, whatever that end was; so again, until as
//! many were served as are wanted, the door has no more, or the door fails. (5) The keeper is given back at each
//! return.
//!
//! So the clause of [`serve_door`] is one clause for all connections (`Hosts`): there is a list of visits, each a
//! connection as it came and as it was left, such that the door gave and got back these, each was served as
//! `wiki_serve` says, what clocks, lots and wire gave is what the visits took in their order, and the run from the
//! opening over the keeper's history goes on by the visits to the history that the keeper has at the end.
//!
//! What is left to others: how one connection is served is `wiki_serve`'s, what a layout says `wiki_layout`'s, the
//! farm's steps `farm_core`'s; and words, streams and exit statuses are the program's.
//!
//! ```text
//! layout "", one connection wanted, a door that has two    HostEnd::Served { connections: 1 }, one left at the door
//! layout "[home]\nslots = 1\n"                             HostEnd::BadLayout { rule: 4 }, the clocks were not read
//! ```
#![tactic(auto)]

mod door_visits;
mod host;
mod opening;

pub use host::{Host, HostEnd, Hosted, serve_door};
