//! The entries of the one history, and the history as a list of them.
//!
//! All that the farm keeps is one list that only grows. (1) A commit is one edit that was taken, with what it counts:
//! the title's revision and the client's index. (2) A beat says only that the clock of home went on. (3) Whatever a
//! region knows is a prefix of the list, so the number of its last entry tells it all. A [`Feed`] is this list; it
//! takes an entry only if the longer list is a history too ([`Feed::push`]), so each query may rest on that.
//!
//! Indexes, by which a query costs less than going over the list, are left to `revision_keeper`.
//!
//! After a commit by a client was pushed into an empty feed, `feed.writes_of(&client)` answers `count` 1 and `last` 1.
#![tactic(auto)]

mod entry;
mod feed;
mod find;

pub use entry::Entry;
pub use feed::{Feed, Writes};
