//! The keeper of the one history in a database that `sqlite3` opens.
//!
//! A history in memory ends with its process, and one in a file has to be read again without reading all of it. So each
//! entry is a row, each title stands once, and every question goes to its rows by an index. The database is another's
//! work and may hold anything, so nothing that comes out of a row is believed: each number, stamp and text is tested as
//! it comes in, and what no history has is a fault and never a wrong page. What was asked is answered in two stages.
//! (1) The tables give what was asked, or a [`TableFault`]. (2) One function makes an answer of that, and counts the
//! fault. So a count stands for each fault and for nothing else, and no path can forget it.
//!
//! A new file gets the tables of version 2. Those of version 1, which wrote a title into each commit, are brought over
//! when the keeper is made ready, by one transaction: after a refusal the file is of version 1 as before.
//!
//! An edit asks the same before it begins and when it is committed, and each replica asks for the entry that came last.
//! So the last answer of each kind is remembered, and what an append makes of it, and the database is asked once.
//!
//! The history is not exposed. What the answers are is shown by tests, beside `MemKeeper` on the same calls; proved are
//! their bounds, the counts, and what is answered if the database could not be opened. Who opens the file is left to
//! others, as is closing it.
//!
//! Over a database in memory, after `start`, an append of a commit on `A` by client 1 with token `t1` answers 1;
//! `latest(A, 1)` is then `Some(1)` and `latest(A, 0)` is `None`, and `faults()` is 0.
#![tactic(auto)]

mod appends;
mod last_answers;
mod questions;
mod rows;
mod schema;
mod sqlite_keeper;
mod table_fault;
mod tables;

pub use sqlite_keeper::SqliteKeeper;
